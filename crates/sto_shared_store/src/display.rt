//! How errors print themselves.
ghost use Rattle.std.specs.Prelude.{Some};
ghost use Rattle.sto_shared_store.specs.ErrorTexts.{plan_error_text, open_error_text, hire_error_text};

use crate::open_error::OpenError;
use crate::owned_store::{HireError, OwnedCloseError};
use crate::owned_worker::GiveBackError;
use crate::plan_error::PlanError;
use crate::store_close_error::StoreCloseError;
use std::fmt;
use sto_part::Naming;
use sto_type::TxType;

impl fmt::Display for PlanError {
    ghost output = { λ error. Some (plan_error_text error) };

    fn fmt<W: fmt::Write>(&self, f: &mut fmt::Formatter<W>) -> fmt::Result {
        match self {
            PlanError::OutOfOrder => write!(f, "an object of a later kind stands before it"),
            PlanError::NoRoom => write!(f, "the object would hold nothing, or too much"),
            PlanError::TooMany => write!(f, "too many parts or objects"),
            PlanError::NoMemory => write!(f, "out of memory"),
        }
    }
}

impl fmt::Display for OpenError {
    ghost output = { λ error. Some (open_error_text error) };

    fn fmt<W: fmt::Write>(&self, f: &mut fmt::Formatter<W>) -> fmt::Result {
        match self {
            OpenError::Workers => write!(f, "a store has 1 to 65,536 workers"),
            OpenError::NoMemory => write!(f, "out of memory"),
        }
    }
}

impl fmt::Display for HireError {
    ghost output = { λ error. Some (hire_error_text error) };

    fn fmt<W: fmt::Write>(&self, f: &mut fmt::Formatter<W>) -> fmt::Result {
        match self {
            HireError::NoneLeft => write!(f, "no worker is left"),
            HireError::NoMemory => write!(f, "out of memory"),
        }
    }
}

impl<T: Naming> fmt::Display for StoreCloseError<T> {
    fn fmt<W: fmt::Write>(&self, f: &mut fmt::Formatter<W>) -> fmt::Result {
        match self {
            StoreCloseError::Missing(_, _) => write!(f, "not all workers are back"),
            StoreCloseError::NoMemory => write!(f, "out of memory"),
        }
    }
}

impl<T: TxType + Drop> fmt::Display for OwnedCloseError<T> {
    fn fmt<W: fmt::Write>(&self, f: &mut fmt::Formatter<W>) -> fmt::Result {
        match self {
            OwnedCloseError::Missing(_) => write!(f, "not all workers are back"),
            OwnedCloseError::Busy(_) => write!(f, "a worker is just coming back"),
            OwnedCloseError::NoMemory => write!(f, "out of memory"),
        }
    }
}

impl<T: TxType + Drop> fmt::Display for GiveBackError<T> {
    fn fmt<W: fmt::Write>(&self, f: &mut fmt::Formatter<W>) -> fmt::Result {
        match self {
            GiveBackError::InTransaction(_) => write!(f, "a transaction is open"),
            GiveBackError::Busy(_) => write!(f, "another call is at its slot"),
        }
    }
}
