//! The jobs of a queue.
ghost use Rattle.std.specs.Prelude.{◌≡◌, ◌<◌, ◌%◌, ◌++◌, [], ◌∷◌, IfOk, OnOk};
ghost use Rattle.sto_run_feed.specs.Orders.{places_in};
ghost use Rattle.sto_run_feed.specs.Jobs.{jobs_for};

use crate::job::{Job, Jobs};
use crate::order::TransactionPlace;
use std::alloc::Global;
use sto_part::NoMemory;

// Adds a job last.
fn add_job(jobs: &mut Jobs, job: Job) -> Result<(), NoMemory>
    ensures { OnOk result (jobs.new.items ≡ jobs.old.items ++ job ∷ []) }
{
    match jobs.push(job) {
        Ok(()) => Ok(()),
        Err(_) => Err(NoMemory),
    }
}

/// The number of the queue, of so many, to which the transactions of a thread go.
pub fn queue_of(thread: u32, queues: usize) -> usize
    requires { 0 < queues }
    ensures is { result ≡ thread % queues }
    ensures within { result < queues }
{
    thread as usize % queues
}

/// The jobs of the queue with a number, of so many: the transactions that go to it, in this order, and the end mark.
pub fn jobs_of(
    alloc: Global,
    order: &[TransactionPlace],
    queues: usize,
    number: usize,
) -> Result<Jobs, NoMemory>
    requires { 0 < queues }
    ensures { IfOk result (λ jobs. jobs.items ≡ jobs_for queues number (places_in order.now)) }
{
    let mut jobs = Vec::new(alloc);
    for place in order {
        let TransactionPlace { thread, position } = *place;
        if queue_of(thread, queues) == number {
            add_job(&mut jobs, Job::Run { thread, position })?;
        }
    }
    add_job(&mut jobs, Job::Last)?;
    Ok(jobs)
}
