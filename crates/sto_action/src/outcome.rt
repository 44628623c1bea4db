//! What a transaction leads to.
use crate::cause::AbortCause;
use sto_model::Call;

/// What one attempt of code led to.
#[derive(Drop)]
pub enum Attempted<S> {
    /// It was not aborted, and its code said this at its end.
    Said(S),
    /// It was aborted, by this cause. Nothing of it took effect.
    Aborted(AbortCause),
}

/// What a transaction that was run gave.
#[derive(Drop)]
pub enum Done<A, E> {
    /// It was committed, and gave this.
    Gave(A),
    /// Its code gave it up, for this reason. Nothing took effect.
    Cancelled(E),
}

/// Why a transaction was not run to its end. Nothing of it took effect, and but for `Worn` the worker can go on with
/// others.
#[derive(Clone, Copy)]
pub enum TransactionError {
    /// So many tries were made, all that it had, and each was aborted; the last one by this cause.
    Busy { tries: u32, last: AbortCause },
    /// Its code asked this call, which its object does not take; or more calls than it may.
    Refused(Call),
    /// The worker has no ticket left.
    Worn,
    /// Memory was wanting.
    NoMemory,
}
