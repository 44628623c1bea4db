//! A worker: one pass, and one queue to take from.
ghost use Rattle.std.specs.Prelude.{◌≡◌, [], ◌∷◌, length, true, IfOk, OnOk};
ghost use Rattle.sto_run_threads.specs.Plans.{MayDraw};
ghost use Rattle.sto_run_threads.specs.Told.{told_in};
ghost use Rattle.sto_run_threads.specs.Ran.{IsTransaction};
ghost use Rattle.sto_run_threads.specs.Worked.{HasWorked};
ghost use Rattle.sto_run_feed.specs.QueuePasses.{IsWorking, IsNextJob, TakesOne};
ghost use Rattle.sto_run_feed.specs.Served.{IsPosted, IsTeamOf, ComesNext, LeadsOn, RunsJob};

use crate::job::Job;
use crate::pass::{JobPass, JobQueue};
use crossbeam_utils::Backoff;
use std::alloc::Global;
use std::sync::Wait;
use sto_core::Cells;
use sto_part::{Naming, NoMemory};
use sto_run_threads::Work;
use sto_table::{Rest, Shared};
use sto_transaction::{AttemptLists, Record};

/// A pass at rest, the number of a queue, and the pass to take from it with.
#[derive(Drop)]
pub struct QueueWorker<T: Naming> {
    pub number: usize,
    pub worker: JobPass,
    pub rest: Rest<T>,
}

/// What workers have done, who were gathered: their pass, those with which they took, and their records.
#[derive(Drop)]
pub struct ServingTeam<T: Naming> {
    pub workers: Vec<JobPass>,
    pub rest: Rest<T>,
    pub records: Vec<Record>,
}

// Takes the next job, and tries again where the queue is empty. After some tries it sleeps until a job is sent.
fn next_job<R: Wait>(rt: &R, queue: &JobQueue, worker: &mut JobPass) -> Job
    requires of { IsWorking queue.now worker.old }
    ensures next { IsNextJob worker.old result }
    ensures taken { TakesOne queue.now worker.old worker.new }
{
    let backoff = Backoff::new();
    for _ in rt.forever() {
        if let Some(job) = queue.take(rt, worker) {
            return job;
        }
        if backoff.is_completed() {
            queue.wait(rt);
        } else {
            backoff.snooze();
        }
    }
    unreachable!()
}

// Runs a transaction, unless jobs are handed back. It answers whether those that follow are run.
fn serve_one<T: Naming, W: Work<T>, C: Cells<T>>(
    work: &W,
    alloc: Global,
    cells: &mut C,
    thread: u32,
    position: u32,
    memory: &mut AttemptLists,
    records: &mut Vec<Record>,
    runs: bool,
) -> Result<bool, NoMemory>
    requires ready { W.ready work.now }
    requires there { IsTransaction (W.plan work.now).file (thread, position) }
    requires next { runs ≡ true → ComesNext (W.plan work.now).tries (thread, position) (told_in records.old) }
    requires free { MayDraw (W.plan work.now) (W.plan work.now).tries (C.view cells.old) }
    requires worked { HasWorked (W.plan work.now) (C.view cells.old) (told_in records.old) }
    ensures same { C.same cells.old cells.new }
    ensures leads { OnOk result (LeadsOn C.Cells (W.plan work.now) cells.old cells.new records.old records.new) }
    ensures ran { IfOk result (RunsJob C.Cells (W.plan work.now) cells.old cells.new (thread, position) records.old records.new runs) }
{
    if runs {
        work.run_one(alloc, cells, thread, position, memory, records)
    } else {
        Ok(false)
    }
}

/// Takes jobs until the end mark, and runs each, until a transaction has used up its tries. That one and all later ones are
/// handed back.
pub fn serve<R: Wait, T: Naming, W: Work<T>>(
    rt: &R,
    work: &W,
    alloc: Global,
    shared: &Shared<T>,
    queues: &[JobQueue],
    server: QueueWorker<T>,
) -> Result<ServingTeam<T>, NoMemory>
    requires ready { W.ready work.now }
    requires posted { IsPosted shared.now queues.now (length queues.now) (W.plan work.now) server }
    ensures team { IfOk result (IsTeamOf shared.now queues.now (W.plan work.now) (server ∷ [])) }
{
    let QueueWorker {
        number,
        mut worker,
        rest,
    } = server;
    let mut pass = shared.pass(rest);
    let mut memory = AttemptLists::new(alloc);
    let mut records = Vec::new(alloc);
    let mut runs = true;
    while let Job::Run { thread, position } = next_job(rt, &queues[number], &mut worker) {
        runs = serve_one(
            work,
            alloc,
            &mut pass,
            thread,
            position,
            &mut memory,
            &mut records,
            runs,
        )?;
    }
    let mut workers = Vec::new(alloc);
    match workers.push(worker) {
        Ok(()) => {}
        Err(_) => return Err(NoMemory),
    }
    Ok(ServingTeam {
        workers,
        rest: pass.rest(),
        records,
    })
}
