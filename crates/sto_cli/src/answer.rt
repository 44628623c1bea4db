//! The texts of the commands.
ghost use Rattle.std.specs.Prelude.{[], IfOk, IfErr};
ghost use Rattle.sto_args.specs.declared.command.Command.TheVariants as commands;
ghost use Rattle.sto_args.specs.Commands.{HasThreads};
ghost use Rattle.sto_lang.specs.Sound.{IsFromTo};
ghost use Rattle.sto_console.specs.Ends.{IsFileRefusal};
ghost use Rattle.sto_cli.specs.Schedules.{IsScheduledFault};
ghost use Rattle.sto_cli.specs.Traces.{IsRefusalFor};
ghost use Rattle.sto_cli.specs.Outputs.{IsOutput};

use crate::script::scheduled_in;
use std::alloc::Global;
use std::mem;
use std::thread::Threads;
use sto_args::GivenText;
use sto_bench::run_generated;
use sto_console::{Refusal, file_in, leave, workers_for};
use sto_lang::Text;
use sto_part::NoMemory;
use sto_run::{Gate, report, run_file, step_file};

/// What `run` prints for these bytes.
pub(crate) fn run_text<R: Threads + Sync, G: Gate>(
    rt: &R,
    alloc: Global,
    bytes: &[u8],
    threads: Option<u32>,
    tries: u32,
    json: bool,
    gate: &G,
) -> Result<Text, Refusal>
    requires threads { HasThreads threads }
    requires tries { IsFromTo 1 64 tries }
    ensures text { IfOk result (λ text. IsOutput (commands.Run threads tries json) bytes.now text.items) }
    ensures fault { IfErr result (λ e. IsFileRefusal e bytes.now) }
{
    let file = file_in(alloc, bytes)?;
    let journal = run_file(rt, alloc, &file, workers_for(&file, threads), tries, gate)?;
    let text = report(alloc, &file, &journal, json)?;
    leave(file, journal);
    Ok(text)
}

/// What `step` prints for these bytes, by the schedule of the words, where there are words.
pub(crate) fn step_text(
    alloc: Global,
    bytes: &[u8],
    tries: u32,
    json: bool,
    schedule: &Option<GivenText>,
) -> Result<Text, Refusal>
    requires { IsFromTo 1 64 tries }
    ensures text { IfOk result (λ text. IsOutput (commands.Step tries json schedule.now) bytes.now text.items) }
    ensures fault { IfErr result (λ e. IsRefusalFor (IsScheduledFault schedule.now bytes.now) e) }
{
    let file = scheduled_in(alloc, bytes, schedule)?;
    let journal = step_file(alloc, &file, tries)?;
    let text = report(alloc, &file, &journal, json)?;
    leave(file, journal);
    Ok(text)
}

/// What `upgrade` prints for these bytes.
pub(crate) fn upgrade_text(alloc: Global, bytes: &[u8]) -> Result<Text, Refusal>
    ensures text { IfOk result (λ text. IsOutput commands.Upgrade bytes.now text.items) }
    ensures fault { IfErr result (λ e. IsFileRefusal e bytes.now) }
{
    let mut file = file_in(alloc, bytes)?;
    file.version = 2;
    Ok(sto_write::write(alloc, &file)?)
}

/// What `gen` prints for this number.
pub(crate) fn gen_text(alloc: Global, number: u64) -> Result<Text, NoMemory>
    ensures { IfOk result (λ text. IsOutput (commands.Gen number) [] text.items) }
{
    let file = sto_gen::generate(alloc, number)?;
    let text = sto_write::write(alloc, &file)?;
    mem::forget(file);
    Ok(text)
}

/// What `bench` prints for this number.
pub(crate) fn bench_text<R: Threads + Sync, G: Gate>(
    rt: &R,
    alloc: Global,
    number: u64,
    threads: Option<u32>,
    gate: &G,
) -> Result<Text, NoMemory>
    requires { HasThreads threads }
    ensures { IfOk result (λ text. IsOutput (commands.Bench number threads) [] text.items) }
{
    let journal = run_generated(rt, alloc, number, threads.unwrap_or(16), 64, gate)?;
    let text = sto_bench::summary(alloc, number, &journal)?;
    mem::forget(journal);
    Ok(text)
}
