//! How errors print themselves.
ghost use Rattle.std.specs.Prelude.{Some};
ghost use Rattle.sto_explore.specs.ErrorTexts.{explore_error_text, run_error_text};

use crate::exploration::ExploreError;
use crate::runs::RunError;
use std::fmt;

impl fmt::Display for ExploreError {
    ghost output = { λ error. Some (explore_error_text error) };

    fn fmt<W: fmt::Write>(&self, f: &mut fmt::Formatter<W>) -> fmt::Result {
        match self {
            ExploreError::NoMemory => write!(f, "out of memory"),
            ExploreError::TooLong => write!(f, "a run has too many events"),
            ExploreError::TooMany => write!(f, "too many schedules"),
        }
    }
}

impl fmt::Display for RunError {
    ghost output = { λ error. Some (run_error_text error) };

    fn fmt<W: fmt::Write>(&self, f: &mut fmt::Formatter<W>) -> fmt::Result {
        match self {
            RunError::NoMemory => write!(f, "out of memory"),
            RunError::TooLong => write!(f, "the run has too many events"),
        }
    }
}
