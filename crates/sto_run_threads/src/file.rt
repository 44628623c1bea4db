//! A whole file.
ghost use Rattle.std.specs.Prelude.{◌≡◌, ◌≤◌, [], IfOk};
ghost use Rattle.sto_run_threads.specs.Plans.{Opens, draws_of, thread_count};
ghost use Rattle.sto_run_threads.specs.Told.{told_in};
ghost use Rattle.sto_run_threads.specs.Ordered.{RunsInOrder, RanInTurn};
ghost use Rattle.sto_run_threads.specs.Accounts.{HasAll};
ghost use Rattle.sto_run_threads.specs.Worked.{AbortsNone};
ghost use Rattle.sto_run_threads.specs.Teams.{HasMade, view_at};
ghost use Rattle.sto_run_threads.specs.Runs.{IsFinished, IsAccounted};

use crate::all::{Worked, work_all};
use crate::left::run_left;
use crate::one::Work;
use std::alloc::Global;
use std::thread::Threads;
use sto_part::{Contents, Naming, NoMemory};
use sto_plain::Plain;
use sto_table::{Opened, Shared, close, open};
use sto_transaction::Record;

/// What a run of a file leaves: the records of all attempts, and the words with one pass that has gathered all others.
#[derive(Drop)]
pub struct FinishedRun<T: Naming> {
    pub records: Vec<Record>,
    pub words: Plain<T>,
}

/// Closes the words on which workers have run, whose passes were gathered, and runs what they handed back on one pass.
pub fn run_rest<T: Naming, W: Work<T>>(
    work: &W,
    alloc: Global,
    shared: Shared<T>,
    worked: Worked<T>,
) -> Result<FinishedRun<T>, NoMemory>
    requires ready { W.ready work.now }
    requires made { HasMade shared (W.plan work.now) worked.rest (told_in worked.records) }
    requires all { HasAll (draws_of (W.plan work.now)) shared.table.shared.key.passes (view_at worked.rest) (told_in worked.records) }
    ensures finished { IfOk result (IsFinished (W.plan work.now)) }
    ensures accounted { IfOk result IsAccounted }
    // What was handed back is run in rising thread and then position, and none of it is aborted.
    ensures none { IfOk result (λ run. AbortsNone (told_in worked.records) (told_in run.records)) }
    ensures in_order { IfOk result (λ run.
        RunsInOrder (0, 0) (thread_count (W.plan work.now), 0) (told_in worked.records) (told_in run.records)) }
{
    let Worked { mut records, rest } = worked;
    let closed = close(alloc, shared, rest)?;
    let words = match Plain::reopen(closed) {
        Ok(words) => words,
        Err(_) => return Err(NoMemory),
    };
    let mut pass = words.at(0);
    run_left(work, alloc, &mut pass, &mut records)?;
    Ok(FinishedRun {
        records,
        words: pass.back(),
    })
}

/// Runs all transactions of a file on threads, and what was handed back on one pass.
pub fn run_threads<R: Threads + Sync, T: Naming + Send + Sync, W: Work<T> + Sync>(
    rt: &R,
    work: &W,
    alloc: Global,
    ty: &T,
    contents: &Contents,
    workers: u32,
) -> Result<FinishedRun<T>, NoMemory>
    requires ready { W.ready work.now }
    requires opens { Opens (W.plan work.now) T.valid (T.sizes ty.now) contents.now.items }
    requires workers { (1 ≤ workers) × (workers ≤ 65536) }
    ensures finished { IfOk result (IsFinished (W.plan work.now)) }
    ensures accounted { IfOk result IsAccounted }
    // With one worker no attempt is aborted, and all is run in rising thread and then position.
    ensures alone { IfOk result (λ run. workers ≡ 1 → AbortsNone [] (told_in run.records)) }
    ensures in_turn { workers ≡ 1 → 1 ≤ (W.plan work.now).tries
        → IfOk result (λ run. RanInTurn (W.plan work.now) (told_in run.records)) }
{
    let Opened { shared, rests } = open(alloc, ty, contents, workers)?;
    let worked = work_all(rt, work, alloc, &shared, rests)?;
    run_rest(work, alloc, shared, worked)
}
