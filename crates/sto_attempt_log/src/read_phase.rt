//! Where the machine of an attempt stands between two events.
ghost use Rattle.sto_attempt_log.specs.Led.{IsLed};

use crate::log::Reached;
use crate::observed::Observed;
use crate::verdict::{Turn, Verdict};

/// Which event is next.
#[derive(Clone, Copy)]
pub enum ReadPhase {
    /// The clock is loaded.
    Unstarted,
    /// The read of a needed part begins.
    Opening { part: u32 },
    /// The next word of the part is read; or, where all were, the read ends.
    Reading { part: u32, ticket: u64 },
    /// The clock is loaded again, as this needed part has a newer ticket.
    Renewing { part: u32, ticket: u64 },
    /// The version of this part, which was seen, is loaded again.
    Rechecking { part: u32 },
    /// The read of this part begins anew.
    Reopening { part: u32 },
    /// Its next word is read anew; or, where all were, this read ends.
    Rereading { part: u32, ticket: u64 },
    /// The body commits with an update.
    Committing,
    /// There is none.
    Over,
}

/// Where the body's end, or the part that it needs, leads.
pub fn lead(set: &Observed, at: u64, reached: Reached) -> (ReadPhase, Turn)
    ensures { IsLed at set.now.updates reached result.0 result.1 }
{
    match reached {
        Reached::Needs(part) => (ReadPhase::Opening { part }, Turn::More),
        Reached::Commits => {
            if set.has_updates() {
                (ReadPhase::Committing, Turn::Ready)
            } else {
                (ReadPhase::Over, Turn::Ended(Verdict::Read { at }))
            }
        }
        Reached::Cancels => (ReadPhase::Over, Turn::Ended(Verdict::Cancelled { at })),
    }
}
