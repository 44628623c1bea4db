//! How errors print themselves.
ghost use Rattle.std.specs.Prelude.{Some};
ghost use Rattle.sto_schedule.specs.ErrorTexts.{schedule_error_text};

use crate::read::ScheduleError;
use std::fmt;

impl fmt::Display for ScheduleError {
    ghost output = { λ error. Some (schedule_error_text error) };

    fn fmt<W: fmt::Write>(&self, f: &mut fmt::Formatter<W>) -> fmt::Result {
        match self {
            ScheduleError::Fault(kind) => write!(f, "{kind}"),
            ScheduleError::NoMemory => write!(f, "out of memory"),
        }
    }
}
