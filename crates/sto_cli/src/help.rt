//! What `--help` prints: a page of the program, and one of each command. A page has at most 24 lines of 80 columns. The words of the commands
//! are those of `docs/statuses.md`, and each example stands on a page.
ghost use Rattle.std.specs.Prelude.{◌≡◌, [], true, IfOk};
ghost use Rattle.std.specs.List.{list_all};
ghost use Rattle.sto_args.specs.declared.command.Command.TheVariants as commands;
ghost use Rattle.sto_lang.specs.Ascii.{is_ascii};
ghost use Rattle.sto_cli.specs.Helps.{help_text};
ghost use Rattle.sto_cli.specs.Outputs.{IsOutput};

use std::alloc::Global;
use sto_args::HelpPage;
use sto_lang::Text;
use sto_part::NoMemory;

const PROGRAM: &str = "sto runs scripts of transactions over shared objects, and tells what they do.

sto run [--threads N] [--tries N] [--json]
    runs a script on threads, and prints its report
sto step [--tries N] [--json] [--schedule TEXT]
    runs a script in one thread, by a schedule
sto trace [--tries N] [--json] [--schedule TEXT]
    prints each event of a run by a schedule
sto draw [--tries N] [--schedule TEXT]
    draws a run by a schedule
sto explore [--by WORD] [--states N] [--json] [--where TEXT] [--never TEXT]
    prints what all orders of the transactions lead to
sto schedules [--switches K] [--tries N] [--json]
    prints what the runs by all schedules lead to, within a bound
sto upgrade
    prints a script in version 2 of the language
sto gen NUMBER
    prints the generated script of that number
sto bench NUMBER [--threads N]
    runs the generated script, and prints five lines
sto --help [COMMAND]
    prints this page; sto --help COMMAND tells more, with an example

All but the last three read a script from standard input.
";

const RUN: &str = "sto run [--threads N] [--tries N] [--json]

Reads a script from standard input, runs it on threads, and prints its report:
the transactions in the order in which they took effect, with the reply of each
call; then each aborted attempt; then what the objects hold.

--threads N  1 to 16 threads (16 if not given), but no more than the script has
--tries N    1 to 64 (64 if not given): after so many aborted attempts a
             transaction is handed back with all that follow in its thread, and
             these run last
--json       the report as one line of JSON

An example:
    ./sto run --json < examples/one_get.sto
";

const STEP: &str = "sto step [--tries N] [--json] [--schedule TEXT]

Reads a script from standard input, runs it in one thread, event by event, and
prints its report, as sto run does. The schedule says which thread makes the
next events, and how many.

--tries N        1 to 64 (64 if not given): after so many aborted attempts a
                 transaction is handed back with all that follow in its thread,
                 and these run last
--json           the report as one line of JSON
--schedule TEXT  a schedule in the place of the script's own

An example:
    ./sto step --schedule '0:10 1:20 0:10' < examples/explored/lost_split.sto
";

const TRACE: &str = "sto trace [--tries N] [--json] [--schedule TEXT]

Reads a script from standard input, runs it as sto step does, and prints a line
for each event. The script has at most 256 transactions, and the run makes at
most 100,000 events.

--tries N        1 to 64 (64 if not given): after so many aborted attempts a
                 transaction is handed back with all that follow in its thread,
                 and these run last
--json           each event as a line of JSON
--schedule TEXT  a schedule in the place of the script's own

An example:
    ./sto trace < examples/one_get.sto
";

const DRAW: &str = "sto draw [--tries N] [--schedule TEXT]

Reads a script from standard input, runs it as sto step does, and prints a
picture of the run in SVG. The script has at most 256 transactions, and the run
makes at most 20,000 events.

--tries N        1 to 64 (64 if not given): after so many aborted attempts a
                 transaction is handed back with all that follow in its thread,
                 and these run last
--schedule TEXT  a schedule in the place of the script's own

An example:
    ./sto draw < examples/pictures/phantom.sto > examples/pictures/phantom.svg
";

const EXPLORE: &str = "sto explore [--by WORD] [--states N] [--json] [--where TEXT] [--never TEXT]

Reads a script from standard input, and prints what all orders of its
transactions lead to: each outcome once, with how many orders lead to it, and a
schedule by which sto step prints its report.

--by WORD     what two outcomes differ in: state, what the objects hold;
              answers, this and the replies; or order, these and the order of
              the transactions (state if not given)
--states N    1 to 1000000000 (1000000 if not given): so many states at most
              may be needed where orders meet
--json        the outcomes as one line of JSON
--where TEXT  those outcomes alone of which the question TEXT is true
--never TEXT  the same; the status is 1 where there is one, and else 0

Only one of --where and --never may be given.

An example:
    ./sto explore < examples/explored/lost_update.sto
";

const SCHEDULES: &str = "sto schedules [--switches K] [--tries N] [--json]

Reads a script from standard input, runs it by every schedule with at most K
switches from a thread that could go on, event by event, and prints each report
once, with how many schedules lead to it. The script has at most 256
transactions and 1,000,000 such schedules, and a run makes at most 100,000
events.

--switches K  0 to 8 switches (2 if not given)
--tries N     1 to 64 (64 if not given): after so many aborted attempts a
              transaction is handed back with all that follow in its thread, and
              these run last
--json        the reports as one line of JSON

An example:
    ./sto schedules --switches 0 < examples/explored/lost_update.sto
";

const UPGRADE: &str = "sto upgrade

Reads a script from standard input, and prints it in version 2 of the language,
which names threads, and has vectors and wider limits.

An example:
    ./sto upgrade < examples/one_get.sto
";

const GEN: &str = "sto gen NUMBER

Prints the generated script of that number, 0 to 18446744073709551615. It has
3,200 transactions, and is the same each time. Reads no input.

An example:
    ./sto gen 1
";

const BENCH: &str = "sto bench NUMBER [--threads N]

Runs the script that sto gen NUMBER prints on threads, and prints five lines:
the number, how many transactions there were, and three sums of what the objects
hold, which are the same in whatever order they ran. Reads no input.

--threads N  1 to 16 threads (16 if not given)

An example:
    ./sto bench 1
";

#[tactic(auto, unfolding(crate::specs::Helps::help_text))]
/// What the page says.
fn page_text(page: HelpPage) -> &'static str
    ensures text { result.now ≡ help_text page }
    ensures ascii { list_all is_ascii result.now ≡ true }
{
    match page {
        HelpPage::Program => PROGRAM,
        HelpPage::Run => RUN,
        HelpPage::Step => STEP,
        HelpPage::Trace => TRACE,
        HelpPage::Draw => DRAW,
        HelpPage::Explore => EXPLORE,
        HelpPage::Schedules => SCHEDULES,
        HelpPage::Upgrade => UPGRADE,
        HelpPage::Gen => GEN,
        HelpPage::Bench => BENCH,
    }
}

/// What `--help` prints for this page.
pub(crate) fn help_text(alloc: Global, page: HelpPage) -> Result<Text, NoMemory>
    ensures { IfOk result (λ text. IsOutput (commands.Help page) [] text.items) }
{
    let mut text = Text::new(alloc);
    text.append(page_text(page))?;
    Ok(text)
}
