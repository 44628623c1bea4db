//! How errors print themselves.
ghost use Rattle.std.specs.Prelude.{Some};
ghost use Rattle.sto_library.specs.ErrorTexts.{look_error_text, task_error_text, store_error_text};

use crate::error::StoreError;
use crate::store::{CloseError, LookError};
use crate::task::TaskError;
use std::fmt;
use sto_type::TxType;

impl fmt::Display for LookError {
    ghost output = { λ error. Some (look_error_text error) };

    fn fmt<W: fmt::Write>(&self, f: &mut fmt::Formatter<W>) -> fmt::Result {
        match self {
            LookError::NoWorker => write!(f, "no worker rests in the store"),
            LookError::Transaction(error) => write!(f, "{error}"),
        }
    }
}

impl fmt::Display for TaskError {
    ghost output = { λ error. Some (task_error_text error) };

    fn fmt<W: fmt::Write>(&self, f: &mut fmt::Formatter<W>) -> fmt::Result {
        match self {
            TaskError::NoWorker => write!(f, "there are fewer workers than tasks"),
            TaskError::NoMemory => write!(f, "out of memory"),
        }
    }
}

impl fmt::Display for StoreError {
    ghost output = { λ error. Some (store_error_text error) };

    fn fmt<W: fmt::Write>(&self, f: &mut fmt::Formatter<W>) -> fmt::Result {
        match self {
            StoreError::Plan(error) => write!(f, "{error}"),
            StoreError::Open(error) => write!(f, "{error}"),
            StoreError::Task(error) => write!(f, "{error}"),
            StoreError::Transaction(error) => write!(f, "{error}"),
            StoreError::Look(error) => write!(f, "{error}"),
            StoreError::Close => write!(f, "the store was not closed"),
        }
    }
}

impl<T: TxType + Drop> fmt::Display for CloseError<T> {
    fn fmt<W: fmt::Write>(&self, f: &mut fmt::Formatter<W>) -> fmt::Result {
        match self {
            CloseError::Missing(_) => write!(f, "not all workers are back"),
            CloseError::NoMemory => write!(f, "out of memory"),
        }
    }
}
