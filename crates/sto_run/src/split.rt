//! Records that are aborted, apart from those that are not.
ghost use Rattle.std.specs.Prelude.{◌≡◌, IfOk, filter};
ghost use Rattle.sto_run.specs.Splits.{has_ended, was_aborted};

use std::alloc::{AllocError, Global};
use sto_attempt::Verdict;
use sto_transaction::Record;

/// Records that are not aborted, and those that are, each in their order.
#[derive(Drop)]
pub struct Parted {
    pub ended: Vec<Record>,
    pub aborted: Vec<Record>,
}

/// Parts records.
pub fn part(alloc: Global, records: Vec<Record>) -> Result<Parted, AllocError>
    ensures ended { IfOk result (λ p. p.ended.items ≡ filter has_ended records.items) }
    ensures aborted { IfOk result (λ p. p.aborted.items ≡ filter was_aborted records.items) }
{
    let mut ended = Vec::new(alloc);
    let mut aborted = Vec::new(alloc);
    for record in records {
        match record.verdict {
            Verdict::Locked { .. } | Verdict::Changed { .. } => aborted.push(record)?,
            _ => ended.push(record)?,
        }
    }
    Ok(Parted { ended, aborted })
}
