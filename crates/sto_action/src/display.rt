//! How errors print themselves.
ghost use Rattle.std.specs.Prelude.{Some};
ghost use Rattle.sto_action.specs.ErrorTexts.{cause_text, transaction_error_text};

use crate::cause::AbortCause;
use crate::outcome::TransactionError;
use std::fmt;

impl fmt::Display for AbortCause {
    ghost output = { λ cause. Some (cause_text cause) };

    fn fmt<W: fmt::Write>(&self, f: &mut fmt::Formatter<W>) -> fmt::Result {
        match self {
            AbortCause::Locked { object } => write!(f, "object {object} locked"),
            AbortCause::Changed { object } => write!(f, "object {object} changed"),
        }
    }
}

impl fmt::Display for TransactionError {
    ghost output = { λ error. Some (transaction_error_text error) };

    fn fmt<W: fmt::Write>(&self, f: &mut fmt::Formatter<W>) -> fmt::Result {
        match self {
            TransactionError::Busy { tries, last } => {
                if *tries == 1 {
                    write!(
                        f,
                        "busy: its only try met another transaction; it found {last}"
                    )
                } else {
                    write!(
                        f,
                        "busy: all {tries} tries met another transaction; the last found {last}"
                    )
                }
            }
            TransactionError::Refused(_) => {
                write!(
                    f,
                    "an object does not take a call, or the calls are too many"
                )
            }
            TransactionError::Worn => write!(f, "no tickets are left"),
            TransactionError::NoMemory => write!(f, "out of memory"),
        }
    }
}
