//! A feeder and a worker on a queue of their own.
ghost use Rattle.std.specs.Prelude.{IfOk};
ghost use Rattle.std.specs.Arc.{arc_value};
ghost use Rattle.sto_run_feed.specs.Passes.{IsPass, known};
ghost use Rattle.sto_run_feed.specs.Queues.{EndsWithLast, working};

use crate::waking::feeder::{Pace, send_all};
use crate::waking::seen::Seen;
use crate::waking::worker::take_all;
use std::alloc::{AllocError, Global};
use std::sync::{Arc, Wait};
use std::thread;
use std::thread::Threads;
use std::time::Clock;
use sto_run_feed::{Job, Jobs, OpenedQueue, open_queue};

/// What was seen of a feeder and a worker.
#[derive(Drop)]
pub struct Trial {
    pub jobs: usize,
    /// How many jobs the worker took in time.
    pub in_time: usize,
    /// Whether the worker was woken no more often than jobs were sent.
    pub is_woken_by_jobs: bool,
}

// So many transactions and the end mark.
fn jobs_of(alloc: Global, transactions: u32) -> Result<Jobs, AllocError>
    ensures { IfOk result (λ jobs. EndsWithLast jobs.items) }
{
    let mut jobs = Vec::new(alloc);
    for position in 0..transactions {
        jobs.push(Job::Run {
            thread: 0,
            position,
        })?;
    }
    jobs.push(Job::Last)?;
    Ok(jobs)
}

/// Sends so many transactions and the end mark to a worker on a thread of its own.
pub fn try_pace<R: Threads + Wait + Clock + Copy + Send + 'static>(
    rt: R,
    alloc: Global,
    transactions: u32,
    pace: Pace,
) -> Result<Trial, AllocError> {
    let jobs = jobs_of(alloc, transactions)?;
    let OpenedQueue {
        queue,
        feeder,
        worker,
    } = open_queue(alloc, &jobs).map_err(|_| AllocError)?;
    let queue = Arc::new(alloc, queue)?;
    let seen = Arc::new(alloc, Seen::new())?;
    let (theirs, told) = (queue.clone()?, seen.clone()?);
    let _worker = thread::spawn(
        &rt,
        move || -> ()
            requires { IsPass (arc_value theirs) worker (working (known worker).jobs (known worker).taken) }
        { take_all(&rt, &theirs, worker, &told) },
    )?;
    let in_time = send_all(&rt, &queue, feeder, jobs.as_slice(), pace, &seen);
    Ok(Trial {
        jobs: jobs.len(),
        in_time,
        is_woken_by_jobs: seen.woken() <= jobs.len(),
    })
}
