//! Runs of whole files by a feeder and workers.
ghost use Rattle.std.specs.Prelude.{◌≡◌, [], IfOk};
ghost use Rattle.sto_lang.specs.Sound.{IsSound, IsFromTo};
ghost use Rattle.sto_lang.specs.Views.{file as view};
ghost use Rattle.sto_serializability.specs.Meanings.{updating_by};
ghost use Rattle.sto_store.specs.Stores.{means};
ghost use Rattle.sto_run_threads.specs.Plans.{plan_of};
ghost use Rattle.sto_run.specs.Lawful.{IsLawfulJournal};
ghost use Rattle.sto_run.specs.Runnable.{IsRunnable};

use crate::file::feed_threads;
use std::alloc::Global;
use std::sync::Wait;
use std::thread::Threads;
use sto_journal::Journal;
use sto_lang::File;
use sto_part::NoMemory;
use sto_run::{OpenedRun, objects_of};
use sto_run_threads::{BorrowedFile, Gate, RetryTurn, Workload};
use sto_type::TxType;

/// Feeds the transactions of a file one by one, through queues, to so many workers, which run them by attempts on words that
/// they share, and gives the journal of the run. Its report in either form is lawful for the file and so many tries of a
/// transaction; with one worker it tells no aborted attempt. Where a worker waits for a job that does not come, it waits on.
///
/// A feeder sends position 1 of each script thread in rising thread number, then position 2, and so on, each to the queue whose
/// number is left where the thread's is divided by the number of workers. Each worker takes what was sent to its queue. A
/// transaction with so many aborted attempts is handed back, with all that its worker takes later, and these are run last,
/// beside no other.
pub fn feed_file<R: Threads + Wait + Sync, G: Gate>(
    rt: &R,
    alloc: Global,
    file: &File,
    workers: u32,
    tries: u32,
    gate: &G,
) -> Result<Journal, NoMemory>
    requires sound { IsSound (view file.now) }
    requires workers { IsFromTo 1 16 workers }
    requires tries { IsFromTo 1 64 tries }
    ensures lawful { IfOk result (IsLawfulJournal (updating_by means) (view file.now) tries) }
    ensures alone { workers ≡ 1 → IfOk result (λ journal. journal.aborts.items ≡ []) }
{
    let file = BorrowedFile { file };
    let objects = objects_of(alloc, &file)?;
    let turn = RetryTurn::new();
    let run = OpenedRun::new(alloc, file, &objects, tries, gate, &turn)?;
    feed_opened(rt, alloc, &run, workers)
}

// Feeds the transactions of what was opened to so many workers, and gives the journal.
fn feed_opened<
    R: Threads + Wait + Sync,
    F: Workload + Drop + Send + Sync,
    T: TxType + Send + Sync,
    G: Gate,
>(rt: &R, alloc: Global, run: &OpenedRun<'_, F, T, G>, workers: u32) -> Result<Journal, NoMemory>
    requires runnable { IsRunnable (plan_of T.TxType run.now.work.ty.now (F.file run.now.work.workload) run.now.work.tries) T.valid
        run.now.opening.items }
    requires workers { IsFromTo 1 16 workers }
    ensures lawful { IfOk result (IsLawfulJournal (updating_by (λ _. T.meaning run.now.work.ty.now)) (F.file run.now.work.workload)
        run.now.work.tries) }
    ensures alone { workers ≡ 1 → IfOk result (λ journal. journal.aborts.items ≡ []) }
{
    let finished = feed_threads(rt, &run.work, alloc, run.work.ty, &run.opening, workers)?;
    run.journal(alloc, finished)
}
