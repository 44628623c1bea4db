//! The feeder.
ghost use Rattle.std.specs.Prelude.{◌≤◌, length};
ghost use Rattle.sto_run_feed.specs.QueuePasses.{MayFeed, HaveFed, HaveFedRuns};

use crate::job::Job;
use crate::jobs::queue_of;
use crate::order::TransactionPlace;
use crate::pass::{JobPass, JobQueue};
use std::sync::Wait;

// Sends the transactions in this order, each to the queue of its thread.
fn send_runs<R: Wait>(
    rt: &R,
    queues: &[JobQueue],
    feeders: &mut Vec<JobPass>,
    order: &[TransactionPlace],
)
    requires some { 1 ≤ length queues.now }
    requires none { MayFeed queues.now order.now feeders.old }
    ensures { HaveFedRuns queues.now order.now feeders.new }
{
    for place in order {
        let TransactionPlace { thread, position } = *place;
        let number = queue_of(thread, queues.len());
        queues[number].send(rt, &mut feeders[number], Job::Run { thread, position });
    }
}

/// Sends the transactions in this order, each to the queue whose number is left where its thread's is divided by the number of
/// queues, and last an end mark to each queue. All jobs of each queue are sent then.
pub fn feed<R: Wait>(
    rt: &R,
    queues: &[JobQueue],
    feeders: Vec<JobPass>,
    order: &[TransactionPlace],
) -> Vec<JobPass>
    requires some { 1 ≤ length queues.now }
    requires none { MayFeed queues.now order.now feeders }
    ensures { HaveFed queues.now order.now result }
{
    let mut feeders = feeders;
    send_runs(rt, queues, &mut feeders, order);
    for number in 0..queues.len() {
        queues[number].send(rt, &mut feeders[number], Job::Last);
    }
    feeders
}
