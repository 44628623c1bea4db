//! A feeder whose worker sleeps: each job wakes it, and it takes no processor until then.
//!
//! First the feeder sends a job every twenty milliseconds. Then it sends thousands, each so soon after the worker has taken the one
//! before that the worker is about to go to sleep. The worker's thread is not joined, so the program also ends where it sleeps for ever.
mod feeder;
mod seen;
mod trial;
mod worker;

use feeder::Pace;
use std::io;
use std::sync::Wait;
use std::thread::Threads;
use std::time::Clock;
use trial::{Trial, try_pace};

fn print_trial(rt: &HostRuntime, name: &str, trial: &Trial) -> io::Result<()> {
    println!(rt;
        "{name}: {} of {} taken in time, each waking by a job: {}",
        trial.in_time, trial.jobs, trial.is_woken_by_jobs
    )
}

/// Tries both paces.
pub(crate) fn wake_all<R: Threads + Wait + Clock + Copy + Send + 'static>(
    rt: &HostRuntime,
    threads: R,
) -> io::Result<()> {
    let slow = try_pace(threads, rt.alloc(), 25, Pace::Slow)?;
    print_trial(rt, "slow jobs", &slow)?;
    let quick = try_pace(threads, rt.alloc(), 10_000, Pace::Quick)?;
    print_trial(rt, "quick jobs", &quick)
}
