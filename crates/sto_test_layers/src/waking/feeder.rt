//! The feeder.
ghost use Rattle.sto_run_feed.specs.Passes.{IsPass};
ghost use Rattle.sto_run_feed.specs.Queues.{feeding};

use crate::waking::seen::Seen;
use std::sync::Wait;
use std::time::{Clock, Duration};
use std::{hint, thread};
use sto_run_feed::{Job, JobPass, JobQueue};

/// How long the feeder waits before each job.
#[derive(Clone, Copy)]
pub enum Pace {
    /// Until the worker sleeps.
    Slow,
    /// Until it is about to sleep.
    Quick,
}

// In milliseconds.
const SLOW: u64 = 20;

const NAP: u64 = 1;

// Of so many looks the first ones give the processor away, and the others sleep: ten seconds.
const LOOKS: u32 = 11_000;

const YIELDS: u32 = 1_000;

fn wait_before<C: Clock>(clock: &C, pace: Pace, number: usize) {
    match pace {
        Pace::Slow => thread::sleep(clock, Duration::from_millis(SLOW)),
        Pace::Quick => {
            for _ in 0..number % 64 {
                hint::spin_loop();
            }
        }
    }
}

// Whether the worker has taken so many jobs in time.
fn has_taken<C: Clock>(clock: &C, seen: &Seen, number: usize) -> bool {
    for look in 0..LOOKS {
        if seen.taken() == number {
            return true;
        }
        if look < YIELDS {
            thread::yield_now();
        } else {
            thread::sleep(clock, Duration::from_millis(NAP));
        }
    }
    false
}

/// Sends the jobs, each once the worker has taken the one before. It answers how many the worker took in time, and stops at the
/// first that it does not take.
pub fn send_all<R: Wait + Clock>(
    rt: &R,
    queue: &JobQueue,
    feeder: JobPass,
    jobs: &[Job],
    pace: Pace,
    seen: &Seen,
) -> usize
    requires { IsPass queue.now feeder (feeding jobs.now 0) }
{
    let mut feeder = feeder;
    for number in 0..jobs.len() {
        wait_before(rt, pace, number);
        queue.send(rt, &mut feeder, jobs[number]);
        if !has_taken(rt, seen, number + 1) {
            return number;
        }
    }
    jobs.len()
}
