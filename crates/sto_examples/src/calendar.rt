//! Days of the calendar.
use std::io;
use std::thread::Threads;
use sto_example_calendar::{are_apart, run_calendar};

/// Tells whether no two bookings overlap.
pub(crate) fn run_days<R: Threads + Sync>(rt: &HostRuntime, threads: &R) -> io::Result<()> {
    for number in [1, 2, 4] {
        let Ok(rows) = run_calendar(threads, rt.alloc(), number) else {
            return println!(rt; "no answer: memory was wanting");
        };
        let apart = are_apart(&rows);
        println!(rt; "threads {number}: bookings are apart: {apart}")?;
    }
    Ok(())
}
