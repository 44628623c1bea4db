//! Workers on threads.
ghost use Rattle.std.specs.Prelude.{◌≤◌, IfOk};
ghost use Rattle.std.specs.Thread.{IsSync};
ghost use Rattle.std.specs.Vec.{vec_len};
ghost use Rattle.sto_table.specs.Rests.{IsOf};
ghost use Rattle.sto_run_feed.specs.Served.{AreApart, AreHalves, CanServe, IsOfBoth, IsTeamOf};

use crate::pass::JobQueue;
use crate::server::{QueueWorker, ServingTeam, serve};
use std::alloc::Global;
use std::sync::Wait;
use std::thread::{Threads, join};
use sto_part::{Naming, NoMemory};
use sto_run_threads::Work;
use sto_table::Shared;

// Gathers what two teams have done.
fn gather<T: Naming>(
    shared: &Shared<T>,
    first: ServingTeam<T>,
    other: ServingTeam<T>,
) -> Result<ServingTeam<T>, NoMemory>
    requires first { IsOf shared.now first.rest.seat }
    requires other { IsOf shared.now other.rest.seat }
    ensures both { IfOk result (IsOfBoth shared.now first other) }
{
    let ServingTeam {
        mut workers,
        rest,
        mut records,
    } = first;
    let ServingTeam {
        workers: mut other_workers,
        rest: other_rest,
        records: mut more,
    } = other;
    match records.append(&mut more) {
        Ok(()) => {}
        Err(_) => return Err(NoMemory),
    }
    match workers.append(&mut other_workers) {
        Ok(()) => {}
        Err(_) => return Err(NoMemory),
    }
    Ok(ServingTeam {
        workers,
        rest: shared.gather(rest, other_rest),
        records,
    })
}

// Splits workers in two: those before the number stay.
fn split<T: Naming>(
    servers: &mut Vec<QueueWorker<T>>,
    half: usize,
) -> Result<Vec<QueueWorker<T>>, NoMemory>
    requires half { half ≤ vec_len servers.old }
    requires apart { AreApart servers.old.items }
    ensures { IfOk result (AreHalves half servers.old servers.new) }
{
    let others = match servers.split_off(half) {
        Ok(others) => others,
        Err(_) => return Err(NoMemory),
    };
    Ok(others)
}

/// Lets each worker serve its queue, on threads by halves, and gathers them.
pub fn serve_halves<R: Threads + Wait + Sync, T: Naming + Send + Sync, W: Work<T> + Sync>(
    rt: &R,
    work: &W,
    alloc: Global,
    shared: &Shared<T>,
    queues: &[JobQueue],
    servers: Vec<QueueWorker<T>>,
) -> Result<ServingTeam<T>, NoMemory>
    requires able { CanServe W.Work work.now shared.now queues.now servers }
    ensures team { IfOk result (IsTeamOf shared.now queues.now (W.plan work.now) servers.items) }
{
    let mut servers = servers;
    let half = servers.len() / 2;
    if half == 0 {
        return match servers.pop() {
            Some(server) => serve(rt, work, alloc, shared, queues, server),
            None => Err(NoMemory),
        };
    }
    let others = split(&mut servers, half)?;
    let (first, other) = join(
        rt,
        move || -> Result<ServingTeam<T>, NoMemory>
            requires sync { IsSync R.row }
            requires able { CanServe W.Work work.now shared.now queues.now servers }
            ensures team { IfOk result (IsTeamOf shared.entry.now queues.entry.now (W.plan work.entry.now) servers.items) }
        { serve_halves(rt, work, alloc, shared, queues, servers) },
        move || -> Result<ServingTeam<T>, NoMemory>
            requires sync { IsSync R.row }
            requires able { CanServe W.Work work.now shared.now queues.now others }
            ensures team { IfOk result (IsTeamOf shared.entry.now queues.entry.now (W.plan work.entry.now) others.items) }
        { serve_halves(rt, work, alloc, shared, queues, others) },
    );
    let first = first?;
    let other = other?;
    gather(shared, first, other)
}
