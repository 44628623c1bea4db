//! The examples of the library, each on one thread, on two and on four.
#![tactic(auto)]

mod bank;
mod calendar;
mod inventory;
mod queue;
mod seats;

use std::io;

fn main(rt: HostRuntime) -> io::Result<()> {
    bank::run_days(&rt, &rt)?;
    inventory::run_days(&rt, &rt)?;
    queue::run_days(&rt, &rt)?;
    calendar::run_days(&rt, &rt)?;
    seats::run_days(&rt, &rt)
}
