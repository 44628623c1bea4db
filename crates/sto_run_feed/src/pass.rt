//! Queues and what is known of them.
ghost use Rattle.std.specs.Prelude.{◌≡◌, []};

use crate::job::Job;
use crate::known::Known;
use crate::rule::QueueLaw;
use crossbeam_queue::{Pass, RuledArrayQueue};
use std::alloc::Global;
use std::thread::Parker;

/// A queue of jobs, which a feeder and a worker share.
#[derive(Drop)]
pub struct JobQueue {
    pub ring: RuledArrayQueue<Job, Known, QueueLaw, Global>,
    // On which the worker sleeps until the next send.
    pub(crate) bell: Parker,
}

/// What the feeder or the worker knows of its queue. It has no bytes.
#[derive(Drop)]
pub struct JobPass {
    pub seat: Pass<Job, Known>,
    ghost bare: { seat.me.1 ≡ [] },
}
