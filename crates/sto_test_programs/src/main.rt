//! Calls of the whole programs: cases that stand in files, every run and mistake that the pages show, the reports of their scripts in both
//! versions and both forms, the traces of the examples, runs on workers under gates, replays of what four workers did, and sums that no
//! schedule changes.
#![tactic(auto)]

mod calls;
mod cases;
mod gates;
mod held;
mod made;
mod outcome;
mod page;
mod pages;
mod replays;
mod report;
mod reports;
mod sums;
mod traces;

use std::io;

fn main(rt: HostRuntime) -> io::Result<()> {
    cases::go_over_all(&rt, &rt)?;
    pages::go_over_all(&rt, &rt)?;
    reports::compare_all(&rt, &rt)?;
    traces::compare_all(&rt, &rt)?;
    held::hold_all(&rt, &rt)?;
    sums::sum_all(&rt, &rt)
}
