//! Queues of jobs.
ghost use Rattle.std.specs.Prelude.{◌≡◌, ◌+◌, length, Some, IfOk, IfSome, IfNone, slice_get};
ghost use Rattle.sto_run_feed.specs.Queues.{EndsWithLast, feeding, working};
ghost use Rattle.sto_run_feed.specs.Passes.{IsPass, known, WasEmpty};

use crate::job::{Job, Jobs};
use crate::pass::{JobPass, JobQueue};
use crate::rule::{Ends, Listed, Opening, Sending, Taking};
use crossbeam_queue::RuledArrayQueue;
use std::alloc::Global;
use std::marker::Brand;
use std::sync::Wait;
use std::thread::Parker;
use sto_part::NoMemory;

/// A queue that was just opened, with its two passes.
#[derive(Drop)]
pub struct OpenedQueue {
    pub queue: JobQueue,
    /// To send with.
    pub feeder: JobPass,
    /// To take with.
    pub worker: JobPass,
}

// Opens a queue with room for all of its jobs.
fn opened<L: Listed>(alloc: Global, jobs: &Jobs) -> Result<OpenedQueue, NoMemory>
    requires jobs { L.jobs ≡ jobs.now.items }
    requires last { EndsWithLast jobs.now.items }
    ensures feeder { IfOk result (λ o. IsPass o.queue o.feeder (feeding jobs.now.items 0)) }
    ensures worker { IfOk result (λ o. IsPass o.queue o.worker (working jobs.now.items 0)) }
{
    let (ring, mut seat) = match RuledArrayQueue::ruled(alloc, jobs.len()) {
        Ok(made) => made,
        Err(_) => return Err(NoMemory),
    };
    let other = ring.another::<Opening<L>>(&mut seat);
    Ok(OpenedQueue {
        queue: JobQueue {
            ring,
            bell: Parker::new(),
        },
        feeder: JobPass { seat },
        worker: JobPass { seat: other },
    })
}

/// Opens a queue for these jobs, which end with the only `Last`. It has room for all of them at once. The jobs themselves are
/// not kept: that they are sent, in their order, is asked of the feeder.
pub fn open_queue(alloc: Global, jobs: &Jobs) -> Result<OpenedQueue, NoMemory>
    requires last { EndsWithLast jobs.now.items }
    ensures feeder { IfOk result (λ o. IsPass o.queue o.feeder (feeding jobs.now.items 0)) }
    ensures worker { IfOk result (λ o. IsPass o.queue o.worker (working jobs.now.items 0)) }
{
    opened::<Brand>(alloc, jobs)
}

impl JobQueue {
    /// Sends the job that follows those that the feeder has sent, and wakes the worker where it sleeps. The queue has room for
    /// it. It may wait while the worker is at the same place.
    pub fn send<R: Wait>(&self, rt: &R, feeder: &mut JobPass, job: Job)
        requires of { IsPass self.now feeder.old (feeding (known feeder.old).jobs (known feeder.old).sent) }
        requires next { slice_get (known feeder.old).jobs (known feeder.old).sent ≡ Some job }
        ensures { IsPass self.now feeder.new (feeding (known feeder.old).jobs ((known feeder.old).sent + 1)) }
    {
        match self.ring.push_as::<Sending, R>(rt, &mut feeder.seat, job) {
            Ok(()) => {}
            Err(_) => unreachable!(),
        }
        self.bell.unpark();
    }

    /// Takes the job that follows those that the worker has taken. There is none only where the queue was empty at that step;
    /// then nothing is taken. It may wait while the feeder is at the same place.
    pub fn take<R: Wait>(&self, rt: &R, worker: &mut JobPass) -> Option<Job>
        requires of { IsPass self.now worker.old (working (known worker.old).jobs (known worker.old).taken) }
        ensures some { IfSome result (λ job. (slice_get (known worker.old).jobs (known worker.old).taken ≡ Some job)
            × IsPass self.now worker.new (working (known worker.old).jobs ((known worker.old).taken + 1))) }
        ensures none { IfNone result (WasEmpty (known worker.old) × IsPass self.now worker.new (known worker.old)) }
    {
        self.ring.pop_as::<Taking, R>(rt, &mut worker.seat)
    }

    /// Sleeps until a job is sent, unless one was sent since the last such call ended. It is for the worker, where it found the
    /// queue empty, and takes nothing.
    pub fn wait<R: Wait>(&self, rt: &R) {
        self.bell.park(rt);
    }

    /// Closes a queue whose jobs were all sent and all taken.
    pub fn close(self, feeder: JobPass, worker: JobPass)
        requires feeder { IsPass self feeder (feeding (known feeder).jobs (length (known feeder).jobs)) }
        requires worker { IsPass self worker (working (known feeder).jobs (length (known feeder).jobs)) }
    {
        let JobQueue { ring, .. } = self;
        let JobPass { mut seat } = feeder;
        let JobPass { seat: other } = worker;
        ring.absorb::<Ends>(&mut seat, other);
    }
}
