//! The order of work: the words, the source, the script, the run, the text, the writing.
ghost use Rattle.std.specs.Prelude.{◌≡◌, false, Some, IfOk, IfErr};
ghost use Rattle.sto_lang.specs.Sound.{IsFromTo};
ghost use Rattle.sto_args.specs.Commands.{HasThreads, HasRange, command_in};
ghost use Rattle.sto_args.specs.declared.command.Command.{Command};
ghost use Rattle.sto_args.specs.declared.command.Command.TheVariants as commands;
ghost use Rattle.sto_console.specs.declared.refusal.Refusal.TheVariants.{ReadFault, WriteFault};
ghost use Rattle.sto_console.specs.Ends.{Made, Unmade, Ends, RoseFor};
ghost use Rattle.sto_cli.specs.Programs.{program, reads_script};
ghost use Rattle.sto_cli.specs.declared.told.Answer.TheVariants.{Done};

use crate::answer::{bench_text, gen_text, run_text, step_text, upgrade_text};
use crate::drawn::draw_text;
use crate::explored::explore_told;
use crate::help::help_text;
use crate::scheduled::schedules_text;
use crate::told::{Answer, Told};
use crate::traced::trace_text;
use std::alloc::Global;
use std::thread::Threads;
use sto_args::{Asked, By, Command, GivenText, find_command};
use sto_console::{Refusal, Sink, Source, script_left, write_text};
use sto_lang::Text;
use sto_run::Gate;
use sto_run_schedules::Meter;

/// Reads the source, and runs the script on threads.
fn run_source<R: Threads + Sync, S: Source, G: Gate>(
    rt: &R,
    alloc: Global,
    source: &mut S,
    threads: Option<u32>,
    tries: u32,
    json: bool,
    gate: &G,
) -> Result<Text, Refusal>
    requires threads { HasThreads threads }
    requires tries { IsFromTo 1 64 tries }
    ensures made { IfOk result (λ text.
        Made program (commands.Run threads tries json) Done (S.left source.old) (S.left source.new) text.items) }
    ensures unmade { IfErr result (λ e. Unmade program e (commands.Run threads tries json) (S.left source.old) (S.left source.new)) }
    ensures source_faults { RoseFor ReadFault result (S.faults source.old) (S.faults source.new) }
{
    let bytes = script_left(alloc, source)?;
    run_text(rt, alloc, bytes.as_slice(), threads, tries, json, gate)
}

/// Reads the source, and runs the script in one thread.
fn step_source<S: Source>(
    alloc: Global,
    source: &mut S,
    tries: u32,
    json: bool,
    schedule: Option<GivenText>,
) -> Result<Text, Refusal>
    requires { IsFromTo 1 64 tries }
    ensures made { IfOk result (λ text.
        Made program (commands.Step tries json schedule) Done (S.left source.old) (S.left source.new) text.items) }
    ensures unmade { IfErr result (λ e. Unmade program e (commands.Step tries json schedule) (S.left source.old) (S.left source.new)) }
    ensures source_faults { RoseFor ReadFault result (S.faults source.old) (S.faults source.new) }
{
    let bytes = script_left(alloc, source)?;
    step_text(alloc, bytes.as_slice(), tries, json, &schedule)
}

/// Reads the source, and runs the script in one thread, event by event.
fn trace_source<S: Source>(
    alloc: Global,
    source: &mut S,
    tries: u32,
    json: bool,
    schedule: Option<GivenText>,
) -> Result<Text, Refusal>
    requires { IsFromTo 1 64 tries }
    ensures made { IfOk result (λ text.
        Made program (commands.Trace tries json schedule) Done (S.left source.old) (S.left source.new) text.items) }
    ensures unmade { IfErr result (λ e. Unmade program e (commands.Trace tries json schedule) (S.left source.old) (S.left source.new)) }
    ensures source_faults { RoseFor ReadFault result (S.faults source.old) (S.faults source.new) }
{
    let bytes = script_left(alloc, source)?;
    trace_text(alloc, bytes.as_slice(), tries, json, &schedule)
}

/// Reads the source, runs the script in one thread, event by event, and draws the run.
fn draw_source<S: Source>(
    alloc: Global,
    source: &mut S,
    tries: u32,
    schedule: Option<GivenText>,
) -> Result<Text, Refusal>
    requires { IsFromTo 1 64 tries }
    ensures made { IfOk result (λ text.
        Made program (commands.Draw tries schedule) Done (S.left source.old) (S.left source.new) text.items) }
    ensures unmade { IfErr result (λ e. Unmade program e (commands.Draw tries schedule) (S.left source.old) (S.left source.new)) }
    ensures source_faults { RoseFor ReadFault result (S.faults source.old) (S.faults source.new) }
{
    let bytes = script_left(alloc, source)?;
    draw_text(alloc, bytes.as_slice(), tries, &schedule)
}

/// Reads the source, and tells what all orders of the script's transactions lead to.
fn explore_source<S: Source>(
    alloc: Global,
    source: &mut S,
    by: By,
    states: u64,
    json: bool,
    asked: Option<Asked>,
) -> Result<Told, Refusal>
    ensures made { IfOk result (λ told.
        Made program (commands.Explore by states json asked) told.answer (S.left source.old) (S.left source.new) told.text.items) }
    ensures unmade { IfErr result (λ e. Unmade program e (commands.Explore by states json asked) (S.left source.old) (S.left source.new)) }
    ensures source_faults { RoseFor ReadFault result (S.faults source.old) (S.faults source.new) }
{
    let bytes = script_left(alloc, source)?;
    explore_told(alloc, bytes.as_slice(), by, states, json, &asked)
}

/// Reads the source, runs the script in one thread by each schedule within a bound, and tells what these runs lead to.
fn schedules_source<S: Source, W: Meter>(
    alloc: Global,
    source: &mut S,
    switches: u32,
    tries: u32,
    json: bool,
    meter: &W,
) -> Result<Text, Refusal>
    requires { IsFromTo 1 64 tries }
    ensures made { IfOk result (λ text.
        Made program (commands.Schedules switches tries json) Done (S.left source.old) (S.left source.new) text.items) }
    ensures unmade { IfErr result (λ e. Unmade program e (commands.Schedules switches tries json) (S.left source.old) (S.left source.new)) }
    ensures source_faults { RoseFor ReadFault result (S.faults source.old) (S.faults source.new) }
{
    let bytes = script_left(alloc, source)?;
    schedules_text(alloc, bytes.as_slice(), switches, tries, json, meter)
}

/// Reads the source, and writes the script in version 2.
fn upgrade_source<S: Source>(alloc: Global, source: &mut S) -> Result<Text, Refusal>
    ensures made { IfOk result (λ text. Made program commands.Upgrade Done (S.left source.old) (S.left source.new) text.items) }
    ensures unmade { IfErr result (λ e. Unmade program e commands.Upgrade (S.left source.old) (S.left source.new)) }
    ensures source_faults { RoseFor ReadFault result (S.faults source.old) (S.faults source.new) }
{
    let bytes = script_left(alloc, source)?;
    upgrade_text(alloc, bytes.as_slice())
}

/// Makes the whole text of a command. `run`, `step`, `trace`, `draw`, `explore`, `schedules` and `upgrade` read the source to its end or past the
/// limit; `gen`, `bench` and `--help` do not touch it.
fn told_for<R: Threads + Sync, S: Source, G: Gate, W: Meter>(
    rt: &R,
    alloc: Global,
    command: Command,
    source: &mut S,
    gate: &G,
    meter: &W,
) -> Result<Told, Refusal>
    requires { HasRange command }
    ensures made { IfOk result (λ told. Made program command told.answer (S.left source.old) (S.left source.new) told.text.items) }
    ensures unmade { IfErr result (λ e. Unmade program e command (S.left source.old) (S.left source.new)) }
    ensures unread { reads_script command ≡ false → S.left source.new ≡ S.left source.old }
    ensures source_faults { RoseFor ReadFault result (S.faults source.old) (S.faults source.new) }
{
    match command {
        Command::Run {
            threads,
            tries,
            json,
        } => Ok(Told {
            answer: Answer::Done,
            text: run_source(rt, alloc, source, threads, tries, json, gate)?,
        }),
        Command::Step {
            tries,
            json,
            schedule,
        } => Ok(Told {
            answer: Answer::Done,
            text: step_source(alloc, source, tries, json, schedule)?,
        }),
        Command::Trace {
            tries,
            json,
            schedule,
        } => Ok(Told {
            answer: Answer::Done,
            text: trace_source(alloc, source, tries, json, schedule)?,
        }),
        Command::Draw { tries, schedule } => {
            Ok(Told {
                answer: Answer::Done,
                text: draw_source(alloc, source, tries, schedule)?,
            })
        }
        Command::Explore {
            by,
            states,
            json,
            asked,
        } => explore_source(alloc, source, by, states, json, asked),
        Command::Schedules {
            switches,
            tries,
            json,
        } => Ok(Told {
            answer: Answer::Done,
            text: schedules_source(alloc, source, switches, tries, json, meter)?,
        }),
        Command::Upgrade => Ok(Told {
            answer: Answer::Done,
            text: upgrade_source(alloc, source)?,
        }),
        Command::Gen { number } => Ok(Told {
            answer: Answer::Done,
            text: gen_text(alloc, number)?,
        }),
        Command::Bench { number, threads } => {
            Ok(Told {
                answer: Answer::Done,
                text: bench_text(rt, alloc, number, threads, gate)?,
            })
        }
        Command::Help { page } => Ok(Told {
            answer: Answer::Done,
            text: help_text(alloc, page)?,
        }),
    }
}

/// Does what the words say: makes the whole text, and writes it.
#[tactic(auto, using(sto_console::proofs::Making::refused_making, sto_console::proofs::Making::refused_writing, sto_console::proofs::Making::unwritten, sto_console::proofs::Making::unread))]
pub(crate) fn perform<R: Threads + Sync, S: Source, K: Sink, G: Gate, W: Meter>(
    rt: &R,
    alloc: Global,
    words: &[String],
    source: &mut S,
    out: &mut K,
    gate: &G,
    meter: &W,
) -> Result<Answer, Refusal>
    ensures ends { Ends program result (command_in words.now) (S.left source.old) (S.left source.new) (K.held out.old) (K.held out.new) }
    ensures unread { (command : Command) → command_in words.now ≡ Some command → reads_script command ≡ false → S.left source.new ≡ S.left source.old }
    ensures source_faults { RoseFor ReadFault result (S.faults source.old) (S.faults source.new) }
    ensures out_faults { RoseFor WriteFault result (K.faults out.old) (K.faults out.new) }
{
    let Some(command) = find_command(alloc, words)? else {
        return Err(Refusal::Usage);
    };
    let told = told_for(rt, alloc, command, source, gate, meter)?;
    write_text(out, told.text.as_bytes())?;
    Ok(told.answer)
}
