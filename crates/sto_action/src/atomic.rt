//! Code that is run until an attempt is not aborted.
ghost use Rattle.std.specs.Prelude.{◌≡◌, ◌<◌, ◌≤◌};
ghost use Rattle.sto_model.specs.declared.call.Call.{Call};
ghost use Rattle.sto_history.specs.Added.{Grows};
ghost use Rattle.sto_transaction.specs.Resting.{IsAtRest};
ghost use Rattle.sto_action.specs.Progs.{IsTakenCall};
ghost use Rattle.sto_action.specs.Atomic.{HasLed, IsUndisturbed, told_by};

use crate::attempt::attempt;
use crate::code::Action;
use crate::memory::ActionLists;
use crate::outcome::{Attempted, Done, TransactionError};
use crate::tx::Stop;
use std::alloc::Global;
use sto_core::Cells;
use sto_model::Shapes;
use sto_part::NoMemory;
use sto_transaction::AttemptWatch;
use sto_type::TxType;

/// Runs code as one transaction on a pass that is at rest, on objects of these shapes: attempts are made until one is not aborted, or
/// so many were. Each takes one off the tickets that are left. The memory is lent to each in turn.
pub fn atomically<T: TxType, K: Action, C: Cells<T>, W: AttemptWatch>(
    alloc: Global,
    ty: &T,
    shapes: &Shapes,
    cells: &mut C,
    left: &mut u64,
    tries: u32,
    watch: &mut W,
    memory: &mut ActionLists,
    code: &K,
) -> Result<Done<K::Out, K::Reason>, TransactionError>
where
    K::Out: Drop,
    K::Reason: Drop,
    requires takes { (call : Call) → IsTakenCall shapes.now.items call → (T.meaning ty.now).takes call }
    requires rests { IsAtRest (T.meaning ty.now) (T.sizes ty.now) (C.view cells.old) }
    requires left { left.old ≤ (C.view cells.old).draws }
    requires some { 0 < tries }
    ensures rests { IsAtRest (T.meaning ty.now) (T.sizes ty.now) (C.view cells.new) }
    ensures left { left.new ≤ (C.view cells.new).draws }
    ensures grows { Grows (C.view cells.old) (C.view cells.new) }
    ensures led { HasLed (T.meaning ty.now) (C.view cells.old) (C.view cells.new) tries left.new shapes.now.items (K.most code.now)
        (K.does code.now) result }
    ensures alone { C.passes cells.old ≡ 1 → IsUndisturbed result }
    ensures same { C.same cells.old cells.new }
{
    let mut last = None;
    for aborted in 0..tries {
        if aborted > 0 {
            watch.before_retry();
        }
        if *left == 0 {
            return Err(TransactionError::Worn);
        }
        *left -= 1;
        match attempt(alloc, ty, shapes, cells, watch, memory, code) {
            Ok(Attempted::Said(said)) => return told(said),
            Ok(Attempted::Aborted(cause)) => last = Some(cause),
            Err(NoMemory) => return Err(TransactionError::NoMemory),
        }
    }
    match last {
        Some(last) => Err(TransactionError::Busy { tries, last }),
        None => unreachable!(),
    }
}

// What a transaction gave by what its code said at its end.
fn told<A: Drop, E: Drop>(said: Result<A, Stop<E>>) -> Result<Done<A, E>, TransactionError>
    ensures { result ≡ told_by said }
{
    match said {
        Ok(value) => Ok(Done::Gave(value)),
        Err(Stop::Cancels(reason)) => Ok(Done::Cancelled(reason)),
        Err(Stop::Asks(call)) => Err(TransactionError::Refused(call)),
    }
}
