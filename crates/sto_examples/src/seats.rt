//! Evenings of the box office.
use std::io;
use std::thread::Threads;
use sto_example_seats::{is_paid, run_evening};

/// Tells whether all seats that are sold are paid.
pub(crate) fn run_days<R: Threads + Sync>(rt: &HostRuntime, threads: &R) -> io::Result<()> {
    for number in [1, 2, 4] {
        let Ok(rows) = run_evening(threads, rt.alloc(), number) else {
            return println!(rt; "no answer: memory was wanting");
        };
        let paid = is_paid(&rows);
        println!(rt; "threads {number}: seats are paid: {paid}")?;
    }
    Ok(())
}
