//! The order of reports: those with the fewest entries first.
ghost use Rattle.std.specs.Prelude.{◌≡◌, OnOk, length, flat_map};
ghost use Rattle.std.specs.Ordering.{nat_cmp, ordering_then};
ghost use Rattle.std.specs.Cmp.Lexicographic.{slice_cmp};
ghost use Rattle.std.specs.List.Sorted.{IsPermutation};
ghost use Rattle.sto_run_orders.specs.Reports.{entries_in, entry_rank, rank_of, AreInOrder};

use crate::report::OrderReport;
use std::alloc::AllocError;
use std::cmp::Ordering;
use sto_lang::Turns;
use sto_part::NoMemory;

// Which of two entries comes first.
fn compare_entry(a: &Turns, b: &Turns) -> Ordering
    ensures { result ≡ ordering_then (nat_cmp a.now.thread b.now.thread) (nat_cmp a.now.steps b.now.steps) }
{
    a.thread.cmp(&b.thread).then(a.steps.cmp(&b.steps))
}

// Which of as many entries come first.
fn compare_entries(a: &[Turns], b: &[Turns]) -> Ordering
    requires { length a.now ≡ length b.now }
    ensures { result ≡ slice_cmp nat_cmp (flat_map entry_rank a.now) (flat_map entry_rank b.now) }
{
    for k in 0..a.len() {
        match compare_entry(&a[k], &b[k]) {
            Ordering::Equal => {}
            other => return other,
        }
    }
    Ordering::Equal
}

// Which of two schedules comes first: that with fewer entries.
fn compare(a: &[Turns], b: &[Turns]) -> Ordering
    ensures { result ≡ slice_cmp nat_cmp (rank_of a.now) (rank_of b.now) }
{
    match a.len().cmp(&b.len()) {
        Ordering::Equal => compare_entries(a, b),
        other => other,
    }
}

/// Sorts reports by their schedules.
pub(crate) fn sort(reports: &mut Vec<OrderReport>) -> Result<(), NoMemory>
    ensures order { OnOk result (AreInOrder reports.new.items) }
    ensures same { IsPermutation reports.old.items reports.new.items }
{
    match reports.sort_by(|a, b| compare(a.entries(), b.entries())) {
        Ok(()) => Ok(()),
        Err(AllocError) => Err(NoMemory),
    }
}
