//! The text of a feed.
ghost use Rattle.std.specs.Prelude.{IfOk, IfErr};
ghost use Rattle.sto_args.specs.Asked.{HasNumbers};
ghost use Rattle.sto_console.specs.Ends.{IsFileRefusal};
ghost use Rattle.sto_feed_cli.specs.Programs.{IsFed};

use std::alloc::Global;
use std::sync::Wait;
use std::thread::Threads;
use sto_args::Feeding;
use sto_console::{Refusal, file_in, leave, workers_for};
use sto_lang::Text;
use sto_run::report;
use sto_run_feed::{Gate, feed_file};

/// What is printed for these bytes: the report of a run in which a feeder sends the transactions to the workers.
pub(crate) fn feed_text<R: Threads + Wait + Sync, G: Gate>(
    rt: &R,
    alloc: Global,
    asked: Feeding,
    bytes: &[u8],
    gate: &G,
) -> Result<Text, Refusal>
    requires { HasNumbers asked }
    ensures text { IfOk result (λ text. IsFed asked bytes.now text.items) }
    ensures fault { IfErr result (λ e. IsFileRefusal e bytes.now) }
{
    let file = file_in(alloc, bytes)?;
    let workers = workers_for(&file, asked.threads);
    let journal = feed_file(rt, alloc, &file, workers, asked.tries, gate)?;
    let text = report(alloc, &file, &journal, false)?;
    leave(file, journal);
    Ok(text)
}
