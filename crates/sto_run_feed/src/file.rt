//! A whole file.
ghost use Rattle.std.specs.Prelude.{◌≡◌, ◌≤◌, [], IfOk};
ghost use Rattle.sto_run_threads.specs.Plans.{Opens};
ghost use Rattle.sto_run_threads.specs.Told.{told_in};
ghost use Rattle.sto_run_threads.specs.Worked.{AbortsNone};
ghost use Rattle.sto_run_threads.specs.Runs.{IsFinished, IsAccounted};

use crate::all::serve_all;
use crate::order::in_turn;
use std::alloc::Global;
use std::sync::Wait;
use std::thread::Threads;
use sto_part::{Contents, Naming, NoMemory};
use sto_run_threads::{FinishedRun, Work, run_rest};
use sto_table::{Opened, open};

/// Feeds all transactions of a file in turn to so many workers, on threads, and runs what was handed back on one pass.
pub fn feed_threads<R: Threads + Wait + Sync, T: Naming + Send + Sync, W: Work<T> + Sync>(
    rt: &R,
    work: &W,
    alloc: Global,
    ty: &T,
    contents: &Contents,
    workers: u32,
) -> Result<FinishedRun<T>, NoMemory>
    requires ready { W.ready work.now }
    requires opens { Opens (W.plan work.now) T.valid (T.sizes ty.now) contents.now.items }
    requires workers { (1 ≤ workers) × (workers ≤ 65536) }
    ensures finished { IfOk result (IsFinished (W.plan work.now)) }
    ensures accounted { IfOk result IsAccounted }
    // With one worker no attempt is aborted.
    ensures alone { IfOk result (λ run. workers ≡ 1 → AbortsNone [] (told_in run.records)) }
{
    let order = in_turn(work, alloc)?;
    let Opened { shared, rests } = open(alloc, ty, contents, workers)?;
    let worked = serve_all(rt, work, alloc, &shared, rests, order.as_slice())?;
    run_rest(work, alloc, shared, worked)
}
