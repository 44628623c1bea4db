//! The run of the generated file.
ghost use Rattle.std.specs.Prelude.{IfOk};
ghost use Rattle.sto_lang.specs.Sound.{IsFromTo};
ghost use Rattle.sto_gen.specs.Generated.{file_of};
ghost use Rattle.sto_run.specs.Meanings.{updating_by};
ghost use Rattle.sto_run.specs.Stores.{means};
ghost use Rattle.sto_run.specs.Lawful.{IsLawfulJournal};

use crate::file::GeneratedFile;
use std::alloc::Global;
use std::thread::Threads;
use sto_journal::Journal;
use sto_part::NoMemory;
use sto_run::{Gate, run_workload};

/// Runs the file that a number generates on so many workers, and gives the journal of the run, whose report is lawful for that
/// file and so many tries of a transaction. The file itself is never in memory: each transaction is made when it is run.
pub fn run_generated<R: Threads + Sync, G: Gate>(
    rt: &R,
    alloc: Global,
    number: u64,
    workers: u32,
    tries: u32,
    gate: &G,
) -> Result<Journal, NoMemory>
    requires workers { IsFromTo 1 16 workers }
    requires tries { IsFromTo 1 64 tries }
    ensures { IfOk result (IsLawfulJournal (updating_by means) (file_of number) tries) }
{
    let file = GeneratedFile::new(alloc, number)?;
    run_workload(rt, alloc, file, workers, tries, gate)
}
