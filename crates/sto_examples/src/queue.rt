//! Days of the line.
use std::io;
use std::thread::Threads;
use sto_example_queue::run_line;
use sto_library::{total_of, value_of, wrapping_difference};

/// Tells how much of what was sent was neither received nor waits.
pub(crate) fn run_days<R: Threads + Sync>(rt: &HostRuntime, threads: &R) -> io::Result<()> {
    for number in [1, 2, 4] {
        let Ok(rows) = run_line(threads, rt.alloc(), number) else {
            return println!(rt; "no answer: memory was wanting");
        };
        let sent = value_of(&rows, 0).unwrap_or(0);
        let received = value_of(&rows, 1).unwrap_or(0);
        let waiting = total_of(&rows, 2).unwrap_or(0);
        let lost = wrapping_difference(wrapping_difference(sent, received), waiting);
        println!(rt; "threads {number}: lost {lost}")?;
    }
    Ok(())
}
