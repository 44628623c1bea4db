//! All workers of a table.
ghost use Rattle.std.specs.Prelude.{◌≡◌, ◌≤◌, ◌<◌, ℕ, length, map, IfOk};
ghost use Rattle.std.specs.List.{All};
ghost use Rattle.std.specs.Vec.{vec_len};
ghost use Rattle.sto_run_threads.specs.Accounts.{Gathers};
ghost use Rattle.sto_run_threads.specs.Told.{told_in};
ghost use Rattle.sto_run_threads.specs.Worked.{IsDone};
ghost use Rattle.sto_run_threads.specs.Ordered.{RanInTurn};
ghost use Rattle.sto_run_threads.specs.Teams.{IsReady, IsNew, IsHired, HaveWorked, view_at, views_of, seats_of};
ghost use Rattle.sto_run_threads.specs.Plans.{thread_count};

use crate::halves::work_halves;
use crate::one::Work;
use crate::worker::{ScriptWorker, Team};
use std::alloc::Global;
use std::thread::Threads;
use sto_part::{List, Naming, NoMemory};
use sto_table::{Claimer, Claims, OpenedClaims, Rest, Rests, Shared, close_claims, open_claims};
use sto_transaction::Record;

/// What workers have done: the records of all attempts, and the one pass that has gathered all.
#[derive(Drop)]
pub struct Worked<T: Naming> {
    pub records: Vec<Record>,
    pub rest: Rest<T>,
}

// Gives each pass its claimer.
fn hire<T: Naming, W: Work<T>>(
    work: &W,
    alloc: Global,
    shared: &Shared<T>,
    claims: &Claims,
    rests: Rests<T>,
    claimers: List<Claimer>,
) -> Result<Vec<ScriptWorker<T>>, NoMemory>
    requires many { length rests.items ≡ length claimers.items }
    requires ready { All (IsReady shared.now (W.plan work.now)) rests.items }
    requires new { All (IsNew claims.now) claimers.items }
    ensures hired { IfOk result (λ workers. All (IsHired shared.now claims.now (W.plan work.now)) workers.items) }
    ensures many { IfOk result (λ workers. vec_len workers ≡ length rests.items) }
    ensures gathered { IfOk result (λ workers. Gathers (views_of workers.items) (map view_at rests.items)) }
    ensures seats { IfOk result (λ workers. seats_of workers.items ≡ length claimers.items) }
{
    let mut rests = rests;
    let mut claimers = claimers;
    let mut workers = Vec::new(alloc);
    while let Some(rest) = rests.pop() {
        let Some(claimer) = claimers.pop() else {
            unreachable!()
        };
        match workers.push(ScriptWorker { rest, claimer }) {
            Ok(()) => {}
            Err(_) => return Err(NoMemory),
        }
    }
    Ok(workers)
}

/// Runs a worker for each pass, on threads. Each claims a script thread, runs it, and claims again until none is left.
pub fn work_all<R: Threads + Sync, T: Naming + Send + Sync, W: Work<T> + Sync>(
    rt: &R,
    work: &W,
    alloc: Global,
    shared: &Shared<T>,
    rests: Rests<T>,
) -> Result<Worked<T>, NoMemory>
    requires ready { W.ready work.now }
    requires some { 1 ≤ length rests.items }
    requires rests { All (IsReady shared.now (W.plan work.now)) rests.items }
    ensures worked { IfOk result (HaveWorked shared.now (W.plan work.now) (map view_at rests.items)) }
    ensures done { IfOk result (λ all. (thread : ℕ) → thread < thread_count (W.plan work.now)
        → IsDone (W.plan work.now) (told_in all.records) thread) }
    // One worker runs all in rising thread and then position.
    ensures in_turn { length rests.items ≡ 1 → IfOk result (λ all. RanInTurn (W.plan work.now) (told_in all.records)) }
{
    let OpenedClaims { claims, claimers } = open_claims(alloc, work.threads(), rests.len())?;
    let workers = hire(work, alloc, shared, &claims, rests, claimers)?;
    let Team {
        rest,
        claimer,
        records,
    } = work_halves(rt, work, alloc, shared, &claims, workers)?;
    close_claims(claims, claimer);
    Ok(Worked { records, rest })
}
