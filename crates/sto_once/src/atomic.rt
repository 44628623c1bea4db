//! Code that is run until an attempt is not aborted, once an attempt.
ghost use Rattle.std.specs.Prelude.{◌≡◌, ◌<◌, ◌≤◌, ◌^◌, ℕ};
ghost use Rattle.sto_model.specs.declared.call.Call.{Call};
ghost use Rattle.sto_history.specs.Added.{Grows};
ghost use Rattle.sto_transaction.specs.Resting.{IsAtRest};
ghost use Rattle.sto_action.specs.Progs.{IsTakenCall};
ghost use Rattle.sto_action.specs.Atomic.{HasLed, IsUndisturbed};
ghost use Rattle.sto_once.specs.Telling.{IsEnd, IsToldOnce};

use crate::attempt::attempt;
use crate::code::{Code, Halt};
use std::alloc::Global;
use sto_action::{Attempted, Done, TransactionError};
use sto_core::Cells;
use sto_interactive::StepLists;
use sto_model::Shapes;
use sto_part::NoMemory;
use sto_transaction::AttemptWatch;
use sto_type::TxType;

/// Runs code as one transaction on a pass that is at rest, on objects of these shapes: attempts are made until one is not aborted, or
/// so many were. Each takes one off the tickets that are left. The pass is handed back.
pub fn atomically<T: TxType, K: Code, C: Cells<T>, W: AttemptWatch>(
    alloc: Global,
    ty: &T,
    shapes: &Shapes,
    cells: C,
    left: &mut u64,
    tries: u32,
    watch: &mut W,
    memory: &mut StepLists,
    code: &K,
) -> (C, Result<Done<K::Out, K::Reason>, TransactionError>)
where
    K::Out: Drop,
    K::Reason: Drop,
    requires takes { (call : Call) → IsTakenCall shapes.now.items call → (T.meaning ty.now).takes call }
    requires rests { IsAtRest (T.meaning ty.now) (T.sizes ty.now) (C.view cells) }
    requires left { left.old ≤ (C.view cells).draws }
    requires some { 0 < tries }
    ensures rests { IsAtRest (T.meaning ty.now) (T.sizes ty.now) (C.view result.0) }
    ensures left { left.new ≤ (C.view result.0).draws }
    ensures grows { Grows (C.view cells) (C.view result.0) }
    ensures led { (most : ℕ) → 2 ^ 32 ≤ most → HasLed (T.meaning ty.now) (C.view cells) (C.view result.0) tries left.new
        shapes.now.items most (K.does code.now) result.1 }
    ensures alone { C.passes cells ≡ 1 → IsUndisturbed result.1 }
    ensures same { C.same cells result.0 }
{
    let mut pass = cells;
    let mut last = None;
    for aborted in 0..tries {
        if aborted > 0 {
            watch.before_retry();
        }
        if *left == 0 {
            return (pass, Err(TransactionError::Worn));
        }
        *left -= 1;
        let (back, tried) = attempt(alloc, ty, shapes, pass, memory, code);
        pass = back;
        match tried {
            Ok(Attempted::Said(said)) => return (pass, told(said)),
            Ok(Attempted::Aborted(cause)) => last = Some(cause),
            Err(NoMemory) => return (pass, Err(TransactionError::NoMemory)),
        }
    }
    match last {
        Some(last) => (pass, Err(TransactionError::Busy { tries, last })),
        None => unreachable!(),
    }
}

// What a transaction gave by what its code said at its end.
fn told<A: Drop, E: Drop>(said: Result<A, Halt<E>>) -> Result<Done<A, E>, TransactionError>
    requires { IsEnd said }
    ensures { IsToldOnce said result }
{
    match said {
        Ok(value) => Ok(Done::Gave(value)),
        Err(Halt::Cancels(reason)) => Ok(Done::Cancelled(reason)),
        Err(Halt::Untaken(call)) => Err(TransactionError::Refused(call)),
        Err(Halt::Over) => unreachable!(),
    }
}
