//! The order of the journal.
ghost use Rattle.std.specs.Prelude.{◌≡◌, ◌+◌, ◌*◌, map, OnOk, if◌then◌else◌};
ghost use Rattle.std.specs.Ordering.{is_lt, nat_cmp};
ghost use Rattle.std.specs.List.Sorted.{IsPermutation, IsNonDecreasingBy, IsStableByKey};
ghost use Rattle.sto_transaction.specs.Records.{stands_at};
ghost use Rattle.sto_serializability.specs.Merged.{key_of, is_before, AreInOrder};
ghost use Rattle.sto_transaction.specs.Plain.{verdict, plain};

use std::alloc::AllocError;
use std::cmp::Ordering;
use sto_attempt::Verdict;
use sto_transaction::Record;

/// The number of the history that a record stands at, and whether it stands after the writer with that number.
pub(crate) fn stands(v: Verdict) -> (u64, bool)
    ensures number { result.0 ≡ stands_at (verdict v) }
    ensures key { key_of (verdict v) ≡ 2 * result.0 + (if result.1 then 1 else 0) }
{
    match v {
        Verdict::Wrote { ticket } => (ticket, false),
        Verdict::Read { at } => (at, true),
        Verdict::Cancelled { at } => (at, true),
        Verdict::Locked { at, .. } => (at, true),
        Verdict::Changed { at, .. } => (at, true),
    }
}

/// Which of two records comes first.
fn compare(a: &Record, b: &Record) -> Ordering
    ensures { is_lt result ≡ is_before (plain a.now) (plain b.now) }
{
    let (m, x) = stands(a.verdict);
    let (n, y) = stands(b.verdict);
    (m, x, a.thread, a.position).cmp(&(n, y, b.thread, b.position))
}

/// Sorts records into the order of the journal.
pub fn sort(records: &mut Vec<Record>) -> Result<(), AllocError>
    ensures order { OnOk result (AreInOrder (map plain records.new.items)) }
    ensures same { IsPermutation (map plain records.old.items) (map plain records.new.items) }
{
    records.sort_by(|a, b| compare(a, b))?;
    Ok(())
}

/// Sorts records by thread, and leaves those of each thread in their order.
pub fn sort_by_thread(records: &mut Vec<Record>) -> Result<(), AllocError>
    ensures rising { OnOk result (IsNonDecreasingBy (λ r. r.thread) records.new.items) }
    ensures stable { IsStableByKey (λ (r : Record). r.thread) nat_cmp records.old.items records.new.items }
    ensures same { IsPermutation records.old.items records.new.items }
{
    records.sort_by_key(|r| r.thread)?;
    Ok(())
}
