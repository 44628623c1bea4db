//! Days of the bank.
use std::io;
use std::thread::Threads;
use sto_example_bank::{Told, run_bank, together};
use sto_library::{Done, Either, value_of};

// What an auditor saw, if the clerk is one and saw something.
fn seen(told: Option<&Told>) -> Option<i64> {
    match told {
        Some(Either::Right(Ok(Done::Gave(held)))) => Some(together(&held.boxes)),
        _ => None,
    }
}

/// Tells what the audits saw, and what the accounts have at the end.
pub(crate) fn run_days<R: Threads + Sync>(rt: &HostRuntime, threads: &R) -> io::Result<()> {
    for number in [1, 2, 4] {
        let Ok((told, rows)) = run_bank(threads, rt.alloc(), number) else {
            return println!(rt; "no answer: memory was wanting");
        };
        let (Some(x), Some(y)) = (seen(told.get(2)), seen(told.get(3))) else {
            return println!(rt; "no answer: others were in the way");
        };
        let a = value_of(&rows, 0).unwrap_or(0);
        let b = value_of(&rows, 1).unwrap_or(0);
        let c = value_of(&rows, 2).unwrap_or(0);
        println!(rt; "threads {number}: audits told {x} and {y}; accounts have {a}, {b}, {c}")?;
    }
    Ok(())
}
