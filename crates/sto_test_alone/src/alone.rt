//! The run of a transaction beside nothing.
ghost use Rattle.std.specs.Prelude.{◌≡◌, ◌<◌, ℤ, List, length, map, IfOk};
ghost use Rattle.sto_model.specs.declared.call.Call.{Call};
ghost use Rattle.sto_model.specs.PlainReplies.{plain_reply};
ghost use Rattle.sto_plain.specs.Kept.{AreUpToDate};
ghost use Rattle.sto_plain.specs.Passes.{view_of};
ghost use Rattle.sto_transaction.specs.Plain.{verdict};
ghost use Rattle.sto_transaction.specs.Resting.{IsAtRest};
ghost use Rattle.sto_test_alone.specs.Alone.{RunsAlone};

use std::alloc::Global;
use sto_model::Body;
use sto_part::NoMemory;
use sto_plain::Plain;
use sto_transaction::{AttemptLists, AttemptWatch, Record, Transaction};
use sto_type::TxType;

// Is told how far the transaction is, and does nothing.
#[derive(Drop)]
struct Unwatched;

impl AttemptWatch for Unwatched {
    fn before_event(&mut self, _events: u64) {}

    fn before_retry(&mut self) {}
}

/// Runs a transaction on words that have one pass, which is at rest and may still draw a ticket.
///
/// It answers the words again, and the record of its one attempt, which is not aborted.
pub fn run_transaction_alone<T: TxType, B: Body + Drop>(
    alloc: Global,
    ty: &T,
    words: Plain<T>,
    body: B,
) -> (Plain<T>, Result<Record, NoMemory>)
    requires takes { (call : Call) → B.may_ask body call → (T.meaning ty.now).takes call }
    requires one { (length words.statuses ≡ 1) × (length words.views ≡ 1) }
    requires rests { IsAtRest (T.meaning ty.now) (T.sizes ty.now) (view_of words 0) }
    requires draws { 0 < (view_of words 0).draws }
    ensures alone { IfOk result.1 (λ r. (before after : List (List ℤ)) → AreUpToDate T.valid words before
        → AreUpToDate T.valid result.0 after → RunsAlone (T.meaning ty.now) (B.script body) before after (map plain_reply r.replies.items)
        (verdict r.verdict)) }
    ensures one { (length result.0.statuses ≡ 1) × (length result.0.views ≡ 1) }
    ensures rests { IsAtRest (T.meaning ty.now) (T.sizes ty.now) (view_of result.0 0) }
{
    let mut records = Vec::new(alloc);
    let mut memory = AttemptLists::new(alloc);
    let mut pass = words.at(0);
    let transaction = Transaction {
        ty,
        body,
        thread: 0,
        position: 1,
        tries: 1,
    };
    let ran = transaction.run(alloc, &mut pass, &mut Unwatched, &mut memory, &mut records);
    let words = pass.back();
    match ran {
        Ok(_transacted) => match records.pop() {
            Some(record) => (words, Ok(record)),
            None => unreachable!(),
        },
        Err(NoMemory) => (words, Err(NoMemory)),
    }
}
