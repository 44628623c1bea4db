//! Journal lines.
ghost use Rattle.std.specs.Prelude.{◌≡◌, ◌<◌, ◌^◌, length, false};
ghost use Rattle.std.specs.List.Sorted.{IsNonDecreasing};
ghost use Rattle.sto_transaction.specs.Records.{is_abort};
ghost use Rattle.sto_serializability.specs.Merged.{ending_of};
ghost use Rattle.sto_transaction.specs.Plain.{verdict};
ghost use Rattle.sto_journal.specs.Journals.{entry};
ghost use Rattle.sto_run.specs.PlainLines.{line_at};

use crate::order::stands;
use crate::rank::rank;
use sto_attempt::Verdict;
use sto_journal::{Ending, Line};
use sto_transaction::Record;

/// How a record that is not aborted is told.
fn ending(v: Verdict) -> Ending
    ensures { result ≡ ending_of (verdict v) }
{
    match v {
        Verdict::Wrote { .. } => Ending::Commit,
        Verdict::Read { .. } => Ending::Read,
        _ => Ending::Cancel,
    }
}

/// The line of a record, where these are the tickets of all writers.
pub(crate) fn told(of: Record, tickets: &[u64]) -> Line
    requires rising { IsNonDecreasing tickets.now }
    requires few { length tickets.now < 2 ^ 32 }
    ensures { entry result ≡ line_at tickets.now of }
{
    let (number, _) = stands(of.verdict);
    let k = rank(tickets, number) as u32;
    Line {
        k,
        thread: of.thread,
        position: of.position,
        end: ending(of.verdict),
        replies: of.replies,
    }
}
