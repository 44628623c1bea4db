//! Numbers of the history counted into writers.
ghost use Rattle.std.specs.Prelude.{◌≡◌, ◌≤◌, ℕ, IfOk, map, length};
ghost use Rattle.std.specs.List.Sorted.{IsNonDecreasing};
ghost use Rattle.sto_transaction.specs.Records.{writers_up_to};
ghost use Rattle.sto_transaction.specs.Plain.{plain};
ghost use Rattle.sto_run.specs.Tickets.{tickets_of, up_to};

use std::alloc::{AllocError, Global};
use sto_attempt::Verdict;
use sto_transaction::Record;

/// The tickets of the records that wrote.
fn tickets(alloc: Global, records: &[Record]) -> Result<Vec<u64>, AllocError>
    ensures { IfOk result (λ ts. ts.items ≡ tickets_of records.now) }
{
    let mut found = Vec::new(alloc);
    for record in records {
        if let Verdict::Wrote { ticket } = record.verdict {
            found.push(ticket)?;
        }
    }
    Ok(found)
}

/// How many of the tickets are at most a number.
pub fn rank(tickets: &[u64], number: u64) -> usize
    requires { IsNonDecreasing tickets.now }
    ensures counts { result ≡ up_to number tickets.now }
    ensures bound { result ≤ length tickets.now }
{
    tickets.partition_point(|ticket| *ticket <= number)
}

/// The tickets of the records that wrote, in rising order.
pub fn sorted_tickets(alloc: Global, records: &[Record]) -> Result<Vec<u64>, AllocError>
    ensures rising { IfOk result (λ ts. IsNonDecreasing ts.items) }
    ensures few { IfOk result (λ ts. length ts.items ≤ length records.now) }
    ensures counts { IfOk result (λ ts. (n : ℕ) → up_to n ts.items ≡ writers_up_to n (map plain records.now)) }
{
    let mut found = tickets(alloc, records)?;
    found.sort()?;
    Ok(found)
}
