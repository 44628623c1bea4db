//! The options of each command, as `clap` reads them.
ghost use Rattle.std.specs.Prelude.{◌≡◌, IfOk, map, true, codes};
ghost use Rattle.clap.specs.Words.{app_of, is_simple_and_free};
ghost use Rattle.clap.specs.Simple.{with_rule};
ghost use Rattle.sto_args.specs.Asked.{check_takes, feed_takes};
ghost use Rattle.sto_args.specs.Commands.{run_takes, step_takes, draw_takes, explore_takes, schedules_takes, gen_takes, bench_takes};
ghost use Rattle.sto_args.specs.Grammars.{Finds, app_for, option_rule, nothing};

use clap::error::ErrorKind;
use clap::{Arg, ArgMatches, Command};
use std::alloc::{AllocError, Global};
use sto_part::NoMemory;

/// A command without options.
fn bare<'a>(alloc: Global, name: &'a str) -> Command<'a>
    ensures { app_of result ≡ app_for name.entry.now nothing }
{
    Command::new(alloc, name)
        .no_binary_name(true)
        .disable_help_flag(true)
}

/// The command with an option more.
fn with_option<'a>(
    alloc: Global,
    command: Command<'a>,
    name: &'a str,
) -> Result<Command<'a>, AllocError>
    ensures { IfOk result (λ c. app_of c ≡ with_rule (app_of command.entry) (option_rule name.entry.now)) }
{
    let option = Arg::new(alloc, name).long(name);
    command.arg(option)
}

/// `run [--threads N] [--tries N] [--json]`
pub(crate) fn run_grammar<'a>(alloc: Global) -> Result<Command<'a>, AllocError>
    ensures { IfOk result (λ c. app_of c ≡ app_for (codes "run") run_takes) }
{
    let first = with_option(alloc, bare(alloc, "run"), "threads")?;
    let second = with_option(alloc, first, "tries")?;
    with_option(alloc, second, "json")
}

/// `step [--tries N] [--json] [--schedule TEXT]`
pub(crate) fn step_grammar<'a>(alloc: Global) -> Result<Command<'a>, AllocError>
    ensures { IfOk result (λ c. app_of c ≡ app_for (codes "step") step_takes) }
{
    let first = with_option(alloc, bare(alloc, "step"), "tries")?;
    let second = with_option(alloc, first, "json")?;
    with_option(alloc, second, "schedule")
}

/// `draw [--tries N] [--schedule TEXT]`
pub(crate) fn draw_grammar<'a>(alloc: Global) -> Result<Command<'a>, AllocError>
    ensures { IfOk result (λ c. app_of c ≡ app_for (codes "draw") draw_takes) }
{
    let first = with_option(alloc, bare(alloc, "draw"), "tries")?;
    with_option(alloc, first, "schedule")
}

/// `explore [--by WORD] [--states N] [--json] [--where TEXT] [--never TEXT]`
pub(crate) fn explore_grammar<'a>(alloc: Global) -> Result<Command<'a>, AllocError>
    ensures { IfOk result (λ c. app_of c ≡ app_for (codes "explore") explore_takes) }
{
    let first = with_option(alloc, bare(alloc, "explore"), "by")?;
    let second = with_option(alloc, first, "states")?;
    let third = with_option(alloc, second, "json")?;
    let fourth = with_option(alloc, third, "where")?;
    with_option(alloc, fourth, "never")
}

/// `schedules [--switches K] [--tries N] [--json]`
pub(crate) fn schedules_grammar<'a>(alloc: Global) -> Result<Command<'a>, AllocError>
    ensures { IfOk result (λ c. app_of c ≡ app_for (codes "schedules") schedules_takes) }
{
    let first = with_option(alloc, bare(alloc, "schedules"), "switches")?;
    let second = with_option(alloc, first, "tries")?;
    with_option(alloc, second, "json")
}

/// `gen NUMBER`
pub(crate) fn gen_grammar<'a>(alloc: Global) -> Result<Command<'a>, AllocError>
    ensures { IfOk result (λ c. app_of c ≡ app_for (codes "gen") gen_takes) }
{
    bare(alloc, "gen").arg(Arg::new(alloc, "NUMBER"))
}

/// `bench NUMBER [--threads N]`
pub(crate) fn bench_grammar<'a>(alloc: Global) -> Result<Command<'a>, AllocError>
    ensures { IfOk result (λ c. app_of c ≡ app_for (codes "bench") bench_takes) }
{
    let first = with_option(alloc, bare(alloc, "bench"), "threads")?;
    first.arg(Arg::new(alloc, "NUMBER"))
}

/// `[--tries N]`
pub(crate) fn check_grammar<'a>(alloc: Global) -> Result<Command<'a>, AllocError>
    ensures { IfOk result (λ c. app_of c ≡ app_for (codes "check") check_takes) }
{
    with_option(alloc, bare(alloc, "check"), "tries")
}

/// `[--threads N] [--tries N]`
pub(crate) fn feed_grammar<'a>(alloc: Global) -> Result<Command<'a>, AllocError>
    ensures { IfOk result (λ c. app_of c ≡ app_for (codes "feed") feed_takes) }
{
    let first = with_option(alloc, bare(alloc, "feed"), "threads")?;
    with_option(alloc, first, "tries")
}

/// What the words give the command, where it takes them.
pub(crate) fn matches_in<'a>(
    command: Command<'a>,
    words: &'a [&'a str],
) -> Result<Option<ArgMatches<'a>>, NoMemory>
    requires { is_simple_and_free (app_of command) ≡ true }
    ensures { IfOk result (λ m. Finds (app_of command.entry) (map (λ word. word.now) words.entry.now) m) }
{
    match command.try_get_matches_from(words) {
        Ok(matches) => Ok(Some(matches)),
        Err(error) if error.kind() == ErrorKind::OutOfMemory => Err(NoMemory),
        Err(_) => Ok(None),
    }
}
