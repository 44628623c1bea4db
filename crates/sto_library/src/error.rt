//! Why a program with a store came to no answer.
ghost use Rattle.std.specs.Prelude.{◌≡◌};
ghost use Rattle.sto_library.specs.declared.error.StoreError.TheVariants as why;

use crate::store::{CloseError, LookError};
use crate::task::TaskError;
use sto_action::TransactionError;
use sto_shared_store::{OpenError, PlanError};
use sto_type::TxType;

/// Why a program with a store came to no answer: the error of any call of this library, for a `?` behind each.
#[derive(Clone, Copy)]
pub enum StoreError {
    /// An object was not declared.
    Plan(PlanError),
    /// The store was not opened.
    Open(OpenError),
    /// Tasks were not done, or what they gave is lost.
    Task(TaskError),
    /// A transaction was not run to its end.
    Transaction(TransactionError),
    /// A look at the store gave nothing.
    Look(LookError),
    /// The store was not closed.
    Close,
}

impl From<PlanError> for StoreError {
    ghost from_gives = { λ error e. e ≡ why.Plan error };

    fn from(error: PlanError) -> StoreError {
        StoreError::Plan(error)
    }
}

impl From<OpenError> for StoreError {
    ghost from_gives = { λ error e. e ≡ why.Open error };

    fn from(error: OpenError) -> StoreError {
        StoreError::Open(error)
    }
}

impl From<TaskError> for StoreError {
    ghost from_gives = { λ error e. e ≡ why.Task error };

    fn from(error: TaskError) -> StoreError {
        StoreError::Task(error)
    }
}

impl From<TransactionError> for StoreError {
    ghost from_gives = { λ error e. e ≡ why.Transaction error };

    fn from(error: TransactionError) -> StoreError {
        StoreError::Transaction(error)
    }
}

impl From<LookError> for StoreError {
    ghost from_gives = { λ error e. e ≡ why.Look error };

    fn from(error: LookError) -> StoreError {
        StoreError::Look(error)
    }
}

impl<T: TxType + Drop> From<CloseError<T>> for StoreError {
    ghost from_gives = { λ _ e. e ≡ why.Close };

    fn from(_error: CloseError<T>) -> StoreError {
        StoreError::Close
    }
}
