//! Merges records that are typed by hand, and prints the reports of their journals: those of worked cases, with dropped tickets
//! among them. Then it merges long runs, and says whether each line and each abort line stands in its place.
mod case;
mod long;
mod merged;
mod printed;
mod typed;

use case::Case;
use long::is_in_order;
use printed::report_of;
use std::alloc::{AllocError, Global};
use std::io;
use sto_lang::Text;
use sto_part::NoMemory;

const CASES: [Case; 4] = [
    Case::LostUpdate,
    Case::LateRead,
    Case::WriteSkew,
    Case::PredicateBroken,
];

fn no_memory(_: NoMemory) -> AllocError {
    AllocError
}

// The report of a case; none where its script is faulty or its records are not those of the script.
fn text_of(alloc: Global, case: Case) -> Result<Option<Text>, NoMemory> {
    report_of(alloc, case.script(), case.records(alloc)?, case.left())
}

/// Prints the reports of the worked cases, and whether those of long runs are in order.
pub(crate) fn merge_all(rt: &HostRuntime) -> io::Result<()> {
    let alloc = rt.alloc();
    for case in CASES {
        match text_of(alloc, case).map_err(no_memory)? {
            Some(text) => print!(rt; "{}", text.as_str())?,
            None => println!(rt; "no report")?,
        }
    }
    for positions in [100, 1000] {
        let is_in_order = is_in_order(alloc, positions).map_err(no_memory)?;
        println!(rt; "{} records in order: {is_in_order}", positions * 10)?;
    }
    Ok(())
}
