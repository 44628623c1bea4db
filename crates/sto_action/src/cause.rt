//! Why an attempt was aborted.
ghost use Rattle.std.specs.Prelude.{◌≡◌, false, MatchOption};
ghost use Rattle.sto_history.specs.Records.{is_abort};
ghost use Rattle.sto_transaction.specs.Plain.{verdict};
ghost use Rattle.sto_action.specs.Causes.{IsCauseOf, NamesPart};

use sto_attempt::Verdict;
use sto_type::TxType;

/// Why an attempt was aborted: how it found an object, by the number of the object.
#[derive(Clone, Copy, PartialEq, Eq, Debug)]
pub enum AbortCause {
    /// Another transaction had locked a part of this object.
    Locked { object: u32 },
    /// Another transaction had changed a part of this object.
    Changed { object: u32 },
}

/// Why an attempt was aborted, by how it ended; none where it was not aborted.
pub fn cause_of<T: TxType>(ty: &T, end: Verdict) -> Option<AbortCause>
    requires { NamesPart (T.meaning ty.now) (verdict end) }
    ensures { MatchOption result (is_abort (verdict end) ≡ false) (IsCauseOf (T.meaning ty.now) (verdict end)) }
{
    match end {
        Verdict::Locked { part, .. } => {
            let object = ty.home(part).object;
            Some(AbortCause::Locked { object })
        }
        Verdict::Changed { part, .. } => {
            let object = ty.home(part).object;
            Some(AbortCause::Changed { object })
        }
        Verdict::Wrote { .. } | Verdict::Read { .. } | Verdict::Cancelled { .. } => None,
    }
}
