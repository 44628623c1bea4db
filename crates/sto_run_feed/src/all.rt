//! The feeder and all workers of a table.
ghost use Rattle.std.specs.Prelude.{◌≤◌, length, map, IfOk};
ghost use Rattle.std.specs.List.{All};
ghost use Rattle.std.specs.Thread.{IsSync};
ghost use Rattle.sto_run_threads.specs.Orders.{IsOrder};
ghost use Rattle.sto_run_threads.specs.Teams.{IsReady, HaveWorked, view_at};
ghost use Rattle.sto_run_feed.specs.Orders.{places_in};
ghost use Rattle.sto_run_feed.specs.QueuePasses.{MayFeed, HaveFed, AreDrained};
ghost use Rattle.sto_run_feed.specs.Served.{CanServe, IsTeamOf, HaveServedInTurn};

use crate::feeder::feed;
use crate::halves::serve_halves;
use crate::order::TransactionPlace;
use crate::pass::{JobPass, JobQueue};
use crate::server::{QueueWorker, ServingTeam};
use crate::station::{Stations, open_stations};
use std::alloc::Global;
use std::sync::Wait;
use std::thread::{Threads, join};
use sto_part::{Naming, NoMemory};
use sto_run_threads::{Work, Worked};
use sto_table::{Rests, Shared};

// Closes queues whose jobs were all sent and all taken.
fn close_all(queues: Vec<JobQueue>, feeders: Vec<JobPass>, workers: Vec<JobPass>)
    requires { AreDrained queues.items feeders.items workers.items }
{
    let mut queues = queues;
    let mut feeders = feeders;
    let mut workers = workers;
    while let Some(queue) = queues.pop() {
        let (Some(feeder), Some(worker)) = (feeders.pop(), workers.pop()) else {
            unreachable!()
        };
        queue.close(feeder, worker);
    }
}

// Lets the feeder send the transactions in this order while the workers serve their queues, on threads.
fn feed_and_serve<R: Threads + Wait + Sync, T: Naming + Send + Sync, W: Work<T> + Sync>(
    rt: &R,
    work: &W,
    alloc: Global,
    shared: &Shared<T>,
    queues: &[JobQueue],
    feeders: Vec<JobPass>,
    servers: Vec<QueueWorker<T>>,
    order: &[TransactionPlace],
) -> Result<(Vec<JobPass>, ServingTeam<T>), NoMemory>
    requires queues { 1 ≤ length queues.now }
    requires none { MayFeed queues.now order.now feeders }
    requires able { CanServe W.Work work.now shared.now queues.now servers }
    ensures fed { IfOk result (λ r. HaveFed queues.now order.now r.0) }
    ensures team { IfOk result (λ r. IsTeamOf shared.now queues.now (W.plan work.now) servers.items r.1) }
{
    // Where no thread can be made, `join` runs the second one first: all queues have room for all jobs, so the feeder waits for nobody.
    let (team, fed) = join(
        rt,
        move || -> Result<ServingTeam<T>, NoMemory>
            requires sync { IsSync R.row }
            requires able { CanServe W.Work work.now shared.now queues.now servers }
            ensures team { IfOk result (IsTeamOf shared.entry.now queues.entry.now (W.plan work.entry.now) servers.items) }
        { serve_halves(rt, work, alloc, shared, queues, servers) },
        move || -> Vec<JobPass>
            requires sync { IsSync R.row }
            requires queues { 1 ≤ length queues.now }
            requires none { MayFeed queues.now order.now feeders }
            ensures { HaveFed queues.entry.now order.entry.now result }
        { feed(rt, queues, feeders, order) },
    );
    let team = team?;
    Ok((fed, team))
}

/// Feeds the transactions in this order to a worker for each pass, on threads: those of a thread go to the worker whose number
/// is left where the thread's is divided by the number of workers. Each worker takes the jobs of its queue, each once, in
/// their order.
pub fn serve_all<R: Threads + Wait + Sync, T: Naming + Send + Sync, W: Work<T> + Sync>(
    rt: &R,
    work: &W,
    alloc: Global,
    shared: &Shared<T>,
    rests: Rests<T>,
    order: &[TransactionPlace],
) -> Result<Worked<T>, NoMemory>
    requires ready { W.ready work.now }
    requires some { 1 ≤ length rests.items }
    requires rests { All (IsReady shared.now (W.plan work.now)) rests.items }
    requires order { IsOrder (W.plan work.now).file (places_in order.now) }
    ensures worked { IfOk result (HaveWorked shared.now (W.plan work.now) (map view_at rests.items)) }
    ensures served { IfOk result (HaveServedInTurn (W.plan work.now) (length rests.items) order.now) }
{
    let Stations {
        queues,
        feeders,
        servers,
    } = open_stations(work, alloc, shared, order, rests)?;
    let (feeders, team) = feed_and_serve(
        rt,
        work,
        alloc,
        shared,
        queues.as_slice(),
        feeders,
        servers,
        order,
    )?;
    let ServingTeam {
        workers,
        rest,
        records,
    } = team;
    close_all(queues, feeders, workers);
    Ok(Worked { records, rest })
}
