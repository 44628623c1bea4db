//! Journals of records that may be any.
ghost use Rattle.std.specs.Prelude.{◌≡◌, ◌↔◌, IsTrue, length};
ghost use Rattle.std.specs.List.{All};
ghost use Rattle.sto_run.specs.PlainAborts.{IsInRange};

use std::alloc::Global;
use sto_attempt::Verdict;
use sto_journal::Journal;
use sto_model::State;
use sto_part::NoMemory;
use sto_run::merge;
use sto_transaction::Record;
use sto_type::Home;

const MOST: usize = 10_000;

fn is_in_range(attempt: &Record, parts: usize) -> bool
    ensures { IsTrue result ↔ IsInRange parts attempt.now }
{
    match attempt.verdict {
        Verdict::Locked { part, .. } | Verdict::Changed { part, .. } => (part as usize) < parts,
        _ => true,
    }
}

fn are_in_range(records: &[Record], parts: usize) -> bool
    ensures { IsTrue result ↔ All (IsInRange parts) records.now }
{
    records.iter().all(|attempt| is_in_range(attempt, parts))
}

/// The journal of records, where each object has one part. There is none where a record names another part, or there are more than
/// 10,000.
pub(crate) fn journal_of(
    alloc: Global,
    records: Vec<Record>,
    state: State,
) -> Result<Option<Journal>, NoMemory> {
    let mut homes = Vec::new(alloc);
    for object in 0..state.len() {
        homes.push(Home { object, local: 0 }).map_err(|_| NoMemory)?;
    }
    if records.len() > MOST || !are_in_range(&records, homes.len()) {
        return Ok(None);
    }
    Ok(Some(merge(alloc, records, &homes, state)?))
}
