//! The rule of a queue, and what each kind of step does to what a pass knows.
ghost use Rattle.std.specs.Prelude.{List, []};
ghost use Rattle.sto_run_feed.specs.declared.job.Job.{Job};

use crate::job::Job;
use crate::known::Known;
use crossbeam_queue::protocol::{Join, Lesson, Outcome, Protocol, Split};
use std::marker::{Brand, PhantomData};

/// The rule: between two steps the queue holds the jobs from the taken to the sent.
pub struct QueueLaw;

impl Protocol<Job, Known> for QueueLaw {
    ghost use Rattle.sto_run_feed.specs.Queues.{Keeps, unopened};

    ghost holds = { Keeps };

    ghost first = { unopened };
}

/// The jobs that a queue is opened for.
pub trait Listed {
    ghost jobs: { List Job };
}

impl Listed for Brand {
    ghost jobs = { [] };
}

/// The split at the opening.
pub struct Opening<L> {
    marker: PhantomData<L>,
}

impl<L: Listed> Split<Known> for Opening<L> {
    ghost use Rattle.sto_run_feed.specs.Queues.{feeding, working};

    ghost left = { λ v. feeding L.jobs 0 };

    ghost right = { λ v. working L.jobs 0 };
}

/// The join at the end.
pub struct Ends;

impl Join<Known> for Ends {
    ghost use Rattle.sto_run_feed.specs.Queues.{joined, spent};

    ghost both = { λ v w. joined v.jobs v.sent w.taken };

    ghost spent = { spent };
}

/// A push of the feeder.
pub struct Sending;

impl Outcome<Job, Known> for Sending {
    ghost use Rattle.sto_run_feed.specs.Queues.{HasSent};

    ghost then = { HasSent };
}

impl Lesson<Job, Known> for Sending {
    ghost use Rattle.sto_run_feed.specs.Queues.{AreFew};

    ghost fact = { AreFew };
}

/// A pop of the worker.
pub struct Taking;

impl Outcome<Job, Known> for Taking {
    ghost use Rattle.sto_run_feed.specs.Queues.{HasTaken};

    ghost then = { HasTaken };
}

impl Lesson<Job, Known> for Taking {
    ghost use Rattle.sto_run_feed.specs.Queues.{AreNext};

    ghost fact = { AreNext };
}
