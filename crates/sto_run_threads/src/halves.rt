//! Workers on threads.
ghost use Rattle.std.specs.Prelude.{◌≡◌, ◌≤◌, IfOk};
ghost use Rattle.std.specs.List.{All};
ghost use Rattle.std.specs.Thread.{IsSync};
ghost use Rattle.std.specs.Vec.{vec_len};
ghost use Rattle.sto_run_threads.specs.Teams.{IsHired, HasFinished, IsOfBoth, IsTeamOf};
ghost use Rattle.sto_run_threads.specs.Plans.{thread_count};

use crate::one::Work;
use crate::worker::{ScriptWorker, Team, work_alone};
use std::alloc::Global;
use std::thread::{Threads, join};
use sto_part::{Naming, NoMemory};
use sto_table::{Claims, Shared};

/// Gathers what two teams have done, which claimed different threads.
pub fn gather<T: Naming, W: Work<T>>(
    work: &W,
    shared: &Shared<T>,
    claims: &Claims,
    first: Team<T>,
    other: Team<T>,
) -> Result<Team<T>, NoMemory>
    requires first { HasFinished shared.now claims.now (W.plan work.now) first }
    requires other { HasFinished shared.now claims.now (W.plan work.now) other }
    ensures both { IfOk result (IsOfBoth shared.now claims.now (W.plan work.now) first other) }
{
    let Team {
        rest,
        claimer,
        mut records,
    } = first;
    let Team {
        rest: other_rest,
        claimer: other_claimer,
        records: mut more,
    } = other;
    match records.append(&mut more) {
        Ok(()) => {}
        Err(_) => return Err(NoMemory),
    }
    Ok(Team {
        rest: shared.gather(rest, other_rest),
        claimer: claims.gather(claimer, other_claimer),
        records,
    })
}

/// Runs a worker for each pass, on threads by halves, and gathers them.
pub fn work_halves<R: Threads + Sync, T: Naming + Send + Sync, W: Work<T> + Sync>(
    rt: &R,
    work: &W,
    alloc: Global,
    shared: &Shared<T>,
    claims: &Claims,
    workers: Vec<ScriptWorker<T>>,
) -> Result<Team<T>, NoMemory>
    requires ready { W.ready work.now }
    requires count { claims.now.table.shared.key.count ≡ thread_count (W.plan work.now) }
    requires some { 1 ≤ vec_len workers }
    requires hired { All (IsHired shared.now claims.now (W.plan work.now)) workers.items }
    ensures team { IfOk result (IsTeamOf shared.now claims.now (W.plan work.now) workers.items) }
{
    let mut workers = workers;
    let half = workers.len() / 2;
    if half == 0 {
        return match workers.pop() {
            Some(worker) => work_alone(work, alloc, shared, claims, worker),
            None => Err(NoMemory),
        };
    }
    let others = match workers.split_off(half) {
        Ok(others) => others,
        Err(_) => return Err(NoMemory),
    };
    let (first, other) = join(
        rt,
        move || -> Result<Team<T>, NoMemory>
            requires sync { IsSync R.row }
            requires ready { W.ready work.now }
            requires count { claims.now.table.shared.key.count ≡ thread_count (W.plan work.now) }
            requires some { 1 ≤ vec_len workers }
            requires hired { All (IsHired shared.now claims.now (W.plan work.now)) workers.items }
            ensures team { IfOk result (IsTeamOf shared.entry.now claims.entry.now (W.plan work.entry.now) workers.items) }
        { work_halves(rt, work, alloc, shared, claims, workers) },
        move || -> Result<Team<T>, NoMemory>
            requires sync { IsSync R.row }
            requires ready { W.ready work.now }
            requires count { claims.now.table.shared.key.count ≡ thread_count (W.plan work.now) }
            requires some { 1 ≤ vec_len others }
            requires hired { All (IsHired shared.now claims.now (W.plan work.now)) others.items }
            ensures team { IfOk result (IsTeamOf shared.entry.now claims.entry.now (W.plan work.entry.now) others.items) }
        { work_halves(rt, work, alloc, shared, claims, others) },
    );
    let first = first?;
    let other = other?;
    gather(work, shared, claims, first, other)
}
