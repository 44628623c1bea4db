//! Days of the shop.
use std::io;
use std::thread::Threads;
use sto_example_inventory::{NoSale, Told, run_sales};
use sto_library::{Done, Either, total_of, value_of};

// Why the last sale of somebody was not made, if it was one and was not made.
fn refused(told: Option<&Told>) -> Option<NoSale> {
    match told {
        Some(Either::Left(Ok(Done::Cancelled(why)))) => Some(*why),
        _ => None,
    }
}

/// Tells how many pieces were sold, how many are left, and why the first seller sold no more.
pub(crate) fn run_days<R: Threads + Sync>(rt: &HostRuntime, threads: &R) -> io::Result<()> {
    for number in [1, 2, 4] {
        let Ok((told, rows)) = run_sales(threads, rt.alloc(), number) else {
            return println!(rt; "no answer: memory was wanting");
        };
        let Some(why) = refused(told.first()) else {
            return println!(rt; "no answer: others were in the way");
        };
        let left = value_of(&rows, 0).unwrap_or(0);
        let sold = total_of(&rows, 1).unwrap_or(0);
        println!(rt; "threads {number}: sold {sold}, left {left}; then {why}")?;
    }
    Ok(())
}
