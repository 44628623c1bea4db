//! The commands.
ghost use Rattle.std.specs.Prelude.{◌≡◌, ◌≤◌, IfOk, IfSome, false, is_some, map, string_bytes};
ghost use Rattle.std.specs.List.{list_any};
ghost use Rattle.std.specs.Option.{option_and_then, option_map};
ghost use Rattle.sto_args.specs.Given.{given_by, is_refused};
ghost use Rattle.sto_args.specs.Commands.{HasThreads, HasRange, command_in, command_from, run_takes, run_of, step_takes, stepping_of, step_of, trace_of, draw_takes, draw_of, explore_takes, explore_of, asked_of, schedules_takes, schedules_of, upgrade_of, gen_takes, gen_of, bench_takes, bench_of, help_of, threads_of, tries_of, switches_of, by_of, states_of, decimal_of};

use crate::given::GivenText;
use crate::grammar::{
    bench_grammar, draw_grammar, explore_grammar, gen_grammar, matches_in, run_grammar,
    schedules_grammar, step_grammar,
};
use crate::help::{HelpPage, page_of};
use crate::number::{decimal_of, number_in};
use crate::word::{as_options, has_flag_value, has_refused};
use std::alloc::Global;
use sto_part::NoMemory;

/// What outcomes are told apart by: the final state; that and the answers; or these and the order.
#[derive(Clone, Copy, PartialEq, Eq)]
pub enum By {
    State,
    Answers,
    Order,
}

/// What is asked of outcomes: to tell those alone of which the question is true that a text is; and of `Never`, that there are none.
#[derive(Drop)]
pub enum Asked {
    Where(GivenText),
    Never(GivenText),
}

/// What the program is asked to do.
#[derive(Drop)]
pub enum Command {
    /// Reads a script and runs it, on so many threads, with so many tries of each transaction, and
    /// prints its report, as JSON or as text. Where no number of threads is given, the script says it.
    Run {
        threads: Option<u32>,
        tries: u32,
        json: bool,
    },
    /// Reads a script and runs it in one thread by its schedule, with so many tries of each
    /// transaction, and prints its report, as JSON or as text. Where the words have a schedule, it
    /// stands in the place of that of the script.
    Step {
        tries: u32,
        json: bool,
        schedule: Option<GivenText>,
    },
    /// Reads a script, runs it as `Step` does, and prints a line for each event, as JSON or as text.
    Trace {
        tries: u32,
        json: bool,
        schedule: Option<GivenText>,
    },
    /// Reads a script, runs it as `Step` does, and prints a picture of the run.
    Draw {
        tries: u32,
        schedule: Option<GivenText>,
    },
    /// Reads a script, and prints what all orders of its transactions lead to, as JSON or as text, or
    /// those outcomes alone that are asked for. At most so many nodes may be needed, where orders meet.
    Explore {
        by: By,
        states: u64,
        json: bool,
        asked: Option<Asked>,
    },
    /// Reads a script, runs it by every schedule with at most so many switches, with so many tries of
    /// each transaction, and prints every outcome, as JSON or as text.
    Schedules {
        switches: u32,
        tries: u32,
        json: bool,
    },
    /// Reads a script and prints it in the newest version of the language.
    Upgrade,
    /// Prints the generated script of this number.
    Gen {
        number: u64,
    },
    /// Runs the generated script of this number, on so many threads, and prints its summary. Where no
    /// number of threads is given, the script says it.
    Bench {
        number: u64,
        threads: Option<u32>,
    },
    /// Prints a page of help.
    Help {
        page: HelpPage,
    },
}

/// The threads that an option gives, none where it is not given.
pub(crate) fn threads(text: Option<&str>) -> Option<Option<u32>>
    ensures threads { result ≡ threads_of (option_map (λ t. t.now) text.entry) }
    ensures range { IfSome result HasThreads }
{
    let Some(text) = text else {
        return Some(None);
    };
    let threads = number_in(1, 16, text)?;
    Some(Some(threads as u32))
}

/// The text that an option gives, where it is given.
fn given(alloc: Global, text: Option<&str>) -> Result<Option<GivenText>, NoMemory>
    ensures { IfOk result (λ given. given ≡ option_map (λ t. t.now) text.entry) }
{
    match text {
        Some(text) => Ok(Some(GivenText::of(alloc, text)?)),
        None => Ok(None),
    }
}

/// What two options ask of outcomes. `None` in the result comes where both are given.
fn asked_for(
    alloc: Global,
    only: Option<&str>,
    never: Option<&str>,
) -> Result<Option<Option<Asked>>, NoMemory>
    ensures { IfOk result (λ asked. asked ≡ asked_of (option_map (λ t. t.now) only.entry) (option_map (λ t. t.now) never.entry)) }
{
    match (only, never) {
        (None, None) => Ok(Some(None)),
        (Some(text), None) => Ok(Some(Some(Asked::Where(GivenText::of(alloc, text)?)))),
        (None, Some(text)) => Ok(Some(Some(Asked::Never(GivenText::of(alloc, text)?)))),
        (Some(_), Some(_)) => Ok(None),
    }
}

fn is_given(text: Option<&str>) -> bool
    ensures { result ≡ is_some (option_map (λ t. t.now) text.entry) }
{
    text.is_some()
}

/// The tries that an option gives, 64 where it is not given.
pub(crate) fn tries(text: Option<&str>) -> Option<u32>
    ensures tries { result ≡ tries_of (option_map (λ t. t.now) text.entry) }
    ensures range { IfSome result (λ n. (1 ≤ n) × (n ≤ 64)) }
{
    let Some(text) = text else {
        return Some(64);
    };
    let tries = number_in(1, 64, text)?;
    Some(tries as u32)
}

/// The switches that an option gives, 2 where it is not given.
fn switches(text: Option<&str>) -> Option<u32>
    ensures switches { result ≡ switches_of (option_map (λ t. t.now) text.entry) }
    ensures range { IfSome result (λ k. k ≤ 8) }
{
    let Some(text) = text else {
        return Some(2);
    };
    let switches = number_in(0, 8, text)?;
    Some(switches as u32)
}

/// What an option tells outcomes apart by, the final state where it is not given.
fn told_by(text: Option<&str>) -> Option<By>
    ensures { result ≡ by_of (option_map (λ t. t.now) text.entry) }
{
    let Some(text) = text else {
        return Some(By::State);
    };
    match text {
        "state" => Some(By::State),
        "answers" => Some(By::Answers),
        "order" => Some(By::Order),
        _ => None,
    }
}

/// The nodes that an option allows, 1,000,000 where it is not given.
fn states(text: Option<&str>) -> Option<u64>
    ensures { result ≡ states_of (option_map (λ t. t.now) text.entry) }
{
    let Some(text) = text else {
        return Some(1_000_000);
    };
    number_in(1, 1_000_000_000, text)
}

fn number(text: Option<&str>) -> Option<u64>
    ensures { result ≡ option_and_then decimal_of (option_map (λ t. t.now) text.entry) }
{
    decimal_of(text?)
}

fn run(alloc: Global, words: &[&str]) -> Result<Option<Command>, NoMemory>
    requires { list_any is_refused (map (λ word. word.now) words.now) ≡ false }
    ensures range { IfOk result (λ c. IfSome c HasRange) }
    ensures command { IfOk result (λ c. c ≡ option_and_then run_of (given_by run_takes (map (λ word. word.now) words.now))) }
{
    let Ok(grammar) = run_grammar(alloc) else {
        return Err(NoMemory);
    };
    let Some(matches) = matches_in(grammar, words)? else {
        return Ok(None);
    };
    let Some(threads) = threads(matches.get_str("threads")) else {
        return Ok(None);
    };
    let Some(tries) = tries(matches.get_str("tries")) else {
        return Ok(None);
    };
    let json = is_given(matches.get_str("json"));
    Ok(Some(Command::Run {
        threads,
        tries,
        json,
    }))
}

/// How a script is run in one thread: with so many tries of each transaction, and by the schedule of the words, where they have one. What is
/// printed then is JSON or text.
#[derive(Drop)]
struct Stepping {
    tries: u32,
    json: bool,
    schedule: Option<GivenText>,
}

fn stepping_from(alloc: Global, words: &[&str]) -> Result<Option<Stepping>, NoMemory>
    requires { list_any is_refused (map (λ word. word.now) words.now) ≡ false }
    ensures range { IfOk result (λ s. IfSome s (λ s. (1 ≤ s.tries) × (s.tries ≤ 64))) }
    ensures stepping { IfOk result (λ s. s ≡ option_and_then stepping_of (given_by step_takes (map (λ word. word.now) words.now))) }
{
    let Ok(grammar) = step_grammar(alloc) else {
        return Err(NoMemory);
    };
    let Some(matches) = matches_in(grammar, words)? else {
        return Ok(None);
    };
    let Some(tries) = tries(matches.get_str("tries")) else {
        return Ok(None);
    };
    let json = is_given(matches.get_str("json"));
    let schedule = given(alloc, matches.get_str("schedule"))?;
    Ok(Some(Stepping {
        tries,
        json,
        schedule,
    }))
}

fn step(alloc: Global, words: &[&str]) -> Result<Option<Command>, NoMemory>
    requires { list_any is_refused (map (λ word. word.now) words.now) ≡ false }
    ensures range { IfOk result (λ c. IfSome c HasRange) }
    ensures command { IfOk result (λ c. c ≡ option_and_then step_of (given_by step_takes (map (λ word. word.now) words.now))) }
{
    match stepping_from(alloc, words)? {
        Some(
            Stepping {
                tries,
                json,
                schedule,
            },
        ) => Ok(Some(Command::Step {
            tries,
            json,
            schedule,
        })),
        None => Ok(None),
    }
}

fn trace(alloc: Global, words: &[&str]) -> Result<Option<Command>, NoMemory>
    requires { list_any is_refused (map (λ word. word.now) words.now) ≡ false }
    ensures range { IfOk result (λ c. IfSome c HasRange) }
    ensures command { IfOk result (λ c. c ≡ option_and_then trace_of (given_by step_takes (map (λ word. word.now) words.now))) }
{
    match stepping_from(alloc, words)? {
        Some(
            Stepping {
                tries,
                json,
                schedule,
            },
        ) => Ok(Some(Command::Trace {
            tries,
            json,
            schedule,
        })),
        None => Ok(None),
    }
}

fn draw(alloc: Global, words: &[&str]) -> Result<Option<Command>, NoMemory>
    requires { list_any is_refused (map (λ word. word.now) words.now) ≡ false }
    ensures range { IfOk result (λ c. IfSome c HasRange) }
    ensures command { IfOk result (λ c. c ≡ option_and_then draw_of (given_by draw_takes (map (λ word. word.now) words.now))) }
{
    let Ok(grammar) = draw_grammar(alloc) else {
        return Err(NoMemory);
    };
    let Some(matches) = matches_in(grammar, words)? else {
        return Ok(None);
    };
    let Some(tries) = tries(matches.get_str("tries")) else {
        return Ok(None);
    };
    let schedule = given(alloc, matches.get_str("schedule"))?;
    Ok(Some(Command::Draw { tries, schedule }))
}

fn explore(alloc: Global, words: &[&str]) -> Result<Option<Command>, NoMemory>
    requires { list_any is_refused (map (λ word. word.now) words.now) ≡ false }
    ensures range { IfOk result (λ c. IfSome c HasRange) }
    ensures command { IfOk result (λ c. c ≡ option_and_then explore_of (given_by explore_takes (map (λ word. word.now) words.now))) }
{
    let Ok(grammar) = explore_grammar(alloc) else {
        return Err(NoMemory);
    };
    let Some(matches) = matches_in(grammar, words)? else {
        return Ok(None);
    };
    let Some(by) = told_by(matches.get_str("by")) else {
        return Ok(None);
    };
    let Some(states) = states(matches.get_str("states")) else {
        return Ok(None);
    };
    let json = is_given(matches.get_str("json"));
    let Some(asked) = asked_for(alloc, matches.get_str("where"), matches.get_str("never"))? else {
        return Ok(None);
    };
    Ok(Some(Command::Explore {
        by,
        states,
        json,
        asked,
    }))
}

fn schedules(alloc: Global, words: &[&str]) -> Result<Option<Command>, NoMemory>
    requires { list_any is_refused (map (λ word. word.now) words.now) ≡ false }
    ensures range { IfOk result (λ c. IfSome c HasRange) }
    ensures command { IfOk result (λ c. c ≡ option_and_then schedules_of (given_by schedules_takes (map (λ word. word.now) words.now))) }
{
    let Ok(grammar) = schedules_grammar(alloc) else {
        return Err(NoMemory);
    };
    let Some(matches) = matches_in(grammar, words)? else {
        return Ok(None);
    };
    let Some(switches) = switches(matches.get_str("switches")) else {
        return Ok(None);
    };
    let Some(tries) = tries(matches.get_str("tries")) else {
        return Ok(None);
    };
    let json = is_given(matches.get_str("json"));
    Ok(Some(Command::Schedules {
        switches,
        tries,
        json,
    }))
}

fn upgrade(words: &[&str]) -> Option<Command>
    ensures range { IfSome result HasRange }
    ensures command { result ≡ upgrade_of (map (λ word. word.now) words.now) }
{
    match words {
        [] => Some(Command::Upgrade),
        _ => None,
    }
}

fn generate(alloc: Global, words: &[&str]) -> Result<Option<Command>, NoMemory>
    requires { list_any is_refused (map (λ word. word.now) words.now) ≡ false }
    ensures range { IfOk result (λ c. IfSome c HasRange) }
    ensures command { IfOk result (λ c. c ≡ option_and_then gen_of (given_by gen_takes (map (λ word. word.now) words.now))) }
{
    let Ok(grammar) = gen_grammar(alloc) else {
        return Err(NoMemory);
    };
    let Some(matches) = matches_in(grammar, words)? else {
        return Ok(None);
    };
    let Some(number) = number(matches.get_str("NUMBER")) else {
        return Ok(None);
    };
    Ok(Some(Command::Gen { number }))
}

fn bench(alloc: Global, words: &[&str]) -> Result<Option<Command>, NoMemory>
    requires { list_any is_refused (map (λ word. word.now) words.now) ≡ false }
    ensures range { IfOk result (λ c. IfSome c HasRange) }
    ensures command { IfOk result (λ c. c ≡ option_and_then bench_of (given_by bench_takes (map (λ word. word.now) words.now))) }
{
    let Ok(grammar) = bench_grammar(alloc) else {
        return Err(NoMemory);
    };
    let Some(matches) = matches_in(grammar, words)? else {
        return Ok(None);
    };
    let Some(number) = number(matches.get_str("NUMBER")) else {
        return Ok(None);
    };
    let Some(threads) = threads(matches.get_str("threads")) else {
        return Ok(None);
    };
    Ok(Some(Command::Bench { number, threads }))
}

fn help(words: &[String]) -> Option<Command>
    ensures range { IfSome result HasRange }
    ensures command { result ≡ help_of (map (λ word. string_bytes word) words.now) }
{
    let page = page_of(words)?;
    Some(Command::Help { page })
}

/// The command that the words after the program's name are. `None` comes exactly where they are
/// not in the grammar.
///
/// | Words | Command |
/// |---|---|
/// | `run [--threads N] [--tries N] [--json]` | `Run`, with 1 to 16 threads, with 1 to 64 tries, and 64 where none is given, and with the form of the report |
/// | `step [--tries N] [--json] [--schedule TEXT]` | `Step`, with tries and a form as for `Run`, and with the text, whatever it is |
/// | `trace [--tries N] [--json] [--schedule TEXT]` | `Trace`, with the same as `Step` |
/// | `draw [--tries N] [--schedule TEXT]` | `Draw`, with tries as for `Run`, and with a text as for `Step` |
/// | `explore [--by WORD] [--states N] [--json]`, and at most one of `[--where TEXT]` and `[--never TEXT]` | `Explore`, by `state`, `answers` or `order`, and `state` where none is given, with 1 to 1,000,000,000 nodes, and 1,000,000 where none is given, with a form as for `Run`, and with what is asked by the text, whatever it is |
/// | `schedules [--switches K] [--tries N] [--json]` | `Schedules`, with at most 8 switches, and 2 where none is given, and with tries and a form as for `Run` |
/// | `upgrade` | `Upgrade` |
/// | `gen NUMBER` | `Gen`, with a number of 64 bits |
/// | `bench NUMBER [--threads N]` | `Bench`, with a number of 64 bits, and with threads as for `Run` |
/// | `--help`, and `--help` before the name of one of these | `Help`, with the page of the program or of that command |
///
/// Options stand before or after the NUMBER. An option is given at most once, as two words `--tries N` or as one word `--tries=N`, and `--json`
/// as a word without a value. A number has decimal digits, no sign, and no leading zero unless it is
/// `0` alone.
pub fn find_command(alloc: Global, words: &[String]) -> Result<Option<Command>, NoMemory>
    ensures range { IfOk result (λ c. IfSome c HasRange) }
    ensures command { IfOk result (λ c. c ≡ command_in words.now) }
{
    let [word, rest @ ..] = words else {
        return Ok(None);
    };
    if word.as_str() == "--help" {
        return Ok(help(rest));
    }
    if has_flag_value(rest) {
        return Ok(None);
    }
    let options = as_options(alloc, rest)?;
    command_from(alloc, word.as_str(), options.as_slice())
}

/// The command that a word names, with what the other words give it.
fn command_from(alloc: Global, word: &str, options: &[&str]) -> Result<Option<Command>, NoMemory>
    ensures range { IfOk result (λ c. IfSome c HasRange) }
    ensures command { IfOk result (λ c. c ≡ command_from word.now (map (λ option. option.now) options.now)) }
{
    if has_refused(options) {
        return Ok(None);
    }
    match word {
        "run" => run(alloc, options),
        "step" => step(alloc, options),
        "trace" => trace(alloc, options),
        "draw" => draw(alloc, options),
        "explore" => explore(alloc, options),
        "schedules" => schedules(alloc, options),
        "upgrade" => Ok(upgrade(options)),
        "gen" => generate(alloc, options),
        "bench" => bench(alloc, options),
        _ => Ok(None),
    }
}
