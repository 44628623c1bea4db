//! The worker.
ghost use Rattle.sto_run_feed.specs.Passes.{IsPass, known};
ghost use Rattle.sto_run_feed.specs.Queues.{working};

use crate::waking::seen::Seen;
use std::sync::Wait;
use sto_run_feed::{Job, JobPass, JobQueue};

/// Takes jobs until the end mark, and sleeps where there is none.
pub fn take_all<R: Wait>(rt: &R, queue: &JobQueue, worker: JobPass, seen: &Seen)
    requires { IsPass queue.now worker (working (known worker).jobs (known worker).taken) }
{
    let mut worker = worker;
    for _ in rt.forever() {
        match queue.take(rt, &mut worker) {
            Some(job) => {
                seen.add_taken();
                if job == Job::Last {
                    return;
                }
            }
            None => {
                queue.wait(rt);
                seen.add_woken();
            }
        }
    }
}
