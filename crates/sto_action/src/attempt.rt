//! One attempt of code.
ghost use Rattle.std.specs.Prelude.{◌≡◌, ◌≤◌, ◌+◌, map, IfOk};
ghost use Rattle.sto_model.specs.declared.call.Call.{Call};
ghost use Rattle.sto_model.specs.PlainReplies.{plain_reply};
ghost use Rattle.sto_history.specs.Added.{Grows};
ghost use Rattle.sto_transaction.specs.Plain.{verdict};
ghost use Rattle.sto_transaction.specs.Resting.{IsAtRest};
ghost use Rattle.sto_action.specs.Shortened.{short_of};
ghost use Rattle.sto_action.specs.Progs.{Runs, IsTakenCall};
ghost use Rattle.sto_action.specs.Causes.{NamesPart};
ghost use Rattle.sto_action.specs.Atomic.{HasTried, HasSaid, IsTriedBy};

use crate::body::ActionBody;
use crate::cause::cause_of;
use crate::code::Action;
use crate::memory::ActionLists;
use crate::outcome::Attempted;
use crate::tx::{Stop, Tx};
use std::alloc::Global;
use sto_core::Cells;
use sto_model::Shapes;
use sto_part::NoMemory;
use sto_transaction::{AttemptWatch, Record, Transaction};
use sto_type::TxType;

/// Makes one attempt of code, which may draw one ticket. It answers what the code said at its end, or why it was aborted.
pub(crate) fn attempt<T: TxType, K: Action, C: Cells<T>, W: AttemptWatch>(
    alloc: Global,
    ty: &T,
    shapes: &Shapes,
    cells: &mut C,
    watch: &mut W,
    memory: &mut ActionLists,
    code: &K,
) -> Result<Attempted<Result<K::Out, Stop<K::Reason>>>, NoMemory>
where
    K::Out: Drop,
    K::Reason: Drop,
    requires takes { (call : Call) → IsTakenCall shapes.now.items call → (T.meaning ty.now).takes call }
    requires rests { IsAtRest (T.meaning ty.now) (T.sizes ty.now) (C.view cells.old) }
    requires draws { 1 ≤ (C.view cells.old).draws }
    ensures rests { IsAtRest (T.meaning ty.now) (T.sizes ty.now) (C.view cells.new) }
    ensures draws { (C.view cells.old).draws ≤ (C.view cells.new).draws + 1 }
    ensures grows { Grows (C.view cells.old) (C.view cells.new) }
    ensures tried { HasTried (T.meaning ty.now) (C.view cells.old) (C.view cells.new) shapes.now.items (K.most code.now) (K.does code.now)
        result }
    ensures alone { C.passes cells.old ≡ 1 → IfOk result HasSaid }
    ensures same { C.same cells.old cells.new }
{
    let body = ActionBody::new(memory.take_heard(), code, shapes)?;
    let mut records = memory.take_records();
    let transaction = Transaction {
        ty,
        body,
        thread: 0,
        position: 1,
        tries: 1,
    };
    let transacted = match transaction.run(
        alloc,
        cells,
        watch,
        &mut memory.attempts,
        &mut records,
    ) {
        Ok(transacted) => transacted,
        Err(NoMemory) => return Err(NoMemory),
    };
    match records.pop() {
        Some(last) => {
            let tried = tried_by(ty, code, &last);
            memory.keep(last.replies, records, transacted.body.heard);
            Ok(tried)
        }
        None => unreachable!(),
    }
}

// What an attempt led to, by its record.
#[tactic(auto, using(crate::proofs::Following::runs_of))]
fn tried_by<T: TxType, K: Action>(
    ty: &T,
    code: &K,
    last: &Record,
) -> Attempted<Result<K::Out, Stop<K::Reason>>>
where
    K::Out: Drop,
    K::Reason: Drop,
    requires { NamesPart (T.meaning ty.now) (verdict last.now.verdict) }
    ensures { IsTriedBy (T.meaning ty.now) (verdict last.now.verdict)
        (λ said. Runs (K.does code.now) (map short_of (map plain_reply last.now.replies.items)) said) result }
{
    match cause_of(ty, last.verdict) {
        Some(cause) => Attempted::Aborted(cause),
        None => Attempted::Said(code.run(&mut Tx::of_replies(last.replies.as_slice()))),
    }
}
