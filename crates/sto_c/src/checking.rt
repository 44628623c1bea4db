//! What is wrong with a call that C gives.
ghost use Rattle.std.specs.Prelude.{◌≡◌, ◌≢◌, None, IfOk, IfErr};
ghost use Rattle.std.specs.Bool.{MatchBool};
ghost use Rattle.sto_shared_store.specs.Owned.{replies_of};
ghost use Rattle.sto_c.specs.Calls.{wanted, Takes, IsLawfulCall, IsFault};

use crate::content::WorkerHandle;
use crate::crossing::CallIn;
use crate::status::Status;
use sto_model::{Call, Operation};
use sto_type::TxType;

// How many numbers an operation wants of an object. A scalar has neither places nor keys, so a get, a set and an add want one less of it.
fn wanted(is_scalar: bool, operation: Operation) -> u32
    ensures { result ≡ wanted is_scalar operation }
{
    match (operation, is_scalar) {
        (Operation::Get, true) => 0,
        (Operation::Get, false) => 1,
        (Operation::Set | Operation::Add, true) => 1,
        (Operation::Set | Operation::Add, false) => 2,
        (Operation::Len | Operation::Pop, _) => 0,
        (
            Operation::Take
            | Operation::Remove
            | Operation::Has
            | Operation::Next
            | Operation::Push,
            _,
        ) => 1,
        (Operation::Test | Operation::Put | Operation::Count | Operation::Scan, _) => 2,
    }
}

// Whether a worker is in a transaction.
fn is_within(held: &WorkerHandle) -> bool
    ensures { MatchBool result (replies_of held.now.worker ≢ None) (replies_of held.now.worker ≡ None) }
{
    held.worker.replies().is_some()
}

// Whether the objects of its store take a call.
fn is_taken(held: &WorkerHandle, call: &Call) -> bool
    ensures { MatchBool result (Takes held.now call.now) (Takes held.now call.now → ⊥) }
{
    held.worker.store.ty.takes(call)
}

/// The call that C gives, of the transaction that a worker is in; or what is wrong with it first.
pub(crate) fn call_of(held: &WorkerHandle, given: &CallIn) -> Result<Call, Status>
    ensures lawful { IfOk result (λ call. IsLawfulCall given.now held.now call) }
    ensures fault { IfErr result (λ why. IsFault given.now held.now why) }
{
    if !is_within(held) {
        return Err(Status::NoTransaction);
    }
    if held.objects.all <= given.object {
        return Err(Status::NoObject);
    }
    let Some(call) = given.call() else {
        return Err(Status::NoCall);
    };
    if !is_taken(held, &call) {
        return Err(Status::NoCall);
    }
    if given.numbers != wanted(given.object < held.objects.scalars, call.operation) {
        return Err(Status::BadNumbers);
    }
    Ok(call)
}
