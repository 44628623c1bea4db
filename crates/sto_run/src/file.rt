//! Runs of whole files on threads.
ghost use Rattle.std.specs.Prelude.{◌≡◌, IfOk};
ghost use Rattle.sto_lang.specs.Sound.{IsSound, IsFromTo};
ghost use Rattle.sto_lang.specs.Views.{file as view};
ghost use Rattle.sto_serializability.specs.Meanings.{updating_by};
ghost use Rattle.sto_store.specs.Stores.{means};
ghost use Rattle.sto_run_threads.specs.Plans.{plan_of};
ghost use Rattle.sto_run.specs.Lawful.{IsLawfulJournal};
ghost use Rattle.sto_run.specs.Alone.{RanAlone};
ghost use Rattle.sto_run.specs.Runnable.{IsRunnable};

use crate::opened::OpenedRun;
use crate::stored::objects_of;
use std::alloc::Global;
use std::thread::Threads;
use sto_journal::Journal;
use sto_lang::File;
use sto_part::NoMemory;
use sto_run_threads::{BorrowedFile, Gate, RetryTurn, Workload, run_threads};
use sto_type::TxType;

/// Runs a file that stands in memory on so many workers, as [`run_workload`] does.
pub fn run_file<R: Threads + Sync, G: Gate>(
    rt: &R,
    alloc: Global,
    file: &File,
    workers: u32,
    tries: u32,
    gate: &G,
) -> Result<Journal, NoMemory>
    requires sound { IsSound (view file.now) }
    requires workers { IsFromTo 1 16 workers }
    requires tries { IsFromTo 1 64 tries }
    ensures lawful { IfOk result (IsLawfulJournal (updating_by means) (view file.now) tries) }
    ensures alone { workers ≡ 1 → IfOk result (RanAlone (view file.now)) }
{
    run_workload(rt, alloc, BorrowedFile { file }, workers, tries, gate)
}

/// Runs a file on so many workers, by attempts on words that they share, and gives the journal of the run. Its report in
/// either form is lawful for the file and so many tries of a transaction; with one worker the transactions were run in rising
/// thread and then position, and it tells no aborted attempt.
///
/// Each worker claims script threads until none is left. A transaction with so many aborted attempts is handed back, with all
/// that follow in its thread, and these are run last, beside no other.
pub fn run_workload<R: Threads + Sync, F: Workload + Drop + Send + Sync, G: Gate>(
    rt: &R,
    alloc: Global,
    file: F,
    workers: u32,
    tries: u32,
    gate: &G,
) -> Result<Journal, NoMemory>
    requires sound { IsSound (F.file file) }
    requires workers { IsFromTo 1 16 workers }
    requires tries { IsFromTo 1 64 tries }
    ensures lawful { IfOk result (IsLawfulJournal (updating_by means) (F.file file) tries) }
    ensures alone { workers ≡ 1 → IfOk result (RanAlone (F.file file)) }
{
    let objects = objects_of(alloc, &file)?;
    let turn = RetryTurn::new();
    let run = OpenedRun::new(alloc, file, &objects, tries, gate, &turn)?;
    run_opened(rt, alloc, &run, workers)
}

// Runs what was opened on so many workers, and gives the journal.
fn run_opened<
    R: Threads + Sync,
    F: Workload + Drop + Send + Sync,
    T: TxType + Send + Sync,
    G: Gate,
>(rt: &R, alloc: Global, run: &OpenedRun<'_, F, T, G>, workers: u32) -> Result<Journal, NoMemory>
    requires runnable { IsRunnable (plan_of T.TxType run.now.work.ty.now (F.file run.now.work.workload) run.now.work.tries) T.valid
        run.now.opening.items }
    requires workers { IsFromTo 1 16 workers }
    ensures lawful { IfOk result (IsLawfulJournal (updating_by (λ _. T.meaning run.now.work.ty.now)) (F.file run.now.work.workload)
        run.now.work.tries) }
    ensures alone { workers ≡ 1 → IfOk result (RanAlone (F.file run.now.work.workload)) }
{
    let finished = run_threads(rt, &run.work, alloc, run.work.ty, &run.opening, workers)?;
    run.journal(alloc, finished)
}
