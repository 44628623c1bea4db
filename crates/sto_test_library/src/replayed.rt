//! Code that is run over replies by hand.
use crate::codes::{GiveUp, Swap, Unwanted};
use std::convert::Infallible;
use sto_library::{Action, BoxId, Call, Operation, ShortReply, Stop, Tx};
use sto_model::Reply;

// What a call on the first object asks.
fn call(operation: Operation, a: i64) -> Call {
    Call::new(0, operation, a, 0)
}

// The call at which code stopped, if it did.
fn stopped_at(said: Result<i64, Stop<Infallible>>) -> Option<Call> {
    match said {
        Err(Stop::Asks(call)) => Some(call),
        _ => None,
    }
}

#[test]
fn code_stops_at_a_call_without_a_reply(rt: HostRuntime) {
    let of = BoxId { number: 0 };
    let swap = Swap(of, 8);
    assert_eq!(rt;
        stopped_at(swap.run(&mut Tx::of_heard(&[]))),
        Some(call(Operation::Get, 0))
    );
    assert_eq!(rt;
        stopped_at(swap.run(&mut Tx::of_heard(&[ShortReply::Value(7)]))),
        Some(call(Operation::Set, 8))
    );
    let all = [ShortReply::Value(7), ShortReply::Done];
    assert_eq!(rt; swap.run(&mut Tx::of_heard(&all)).ok(), Some(7));
}

#[test]
fn code_hears_replies(rt: HostRuntime) {
    let all = [Reply::Value(7), Reply::Done];
    let swap = Swap(BoxId { number: 0 }, 8);
    assert_eq!(rt; swap.run(&mut Tx::of_replies(&all)).ok(), Some(7));
}

#[test]
fn code_gives_up(rt: HostRuntime) {
    let heard = [ShortReply::Value(7), ShortReply::Done];
    assert_eq!(rt;
        GiveUp(BoxId { number: 0 }).run(&mut Tx::of_heard(&heard)),
        Err(Stop::Cancels(Unwanted { value: 7 }))
    );
}

#[test]
fn a_call_is_answered_by_what_was_heard(rt: HostRuntime) {
    let heard = [ShortReply::Flag(true)];
    let mut tx = Tx::of_heard(&heard);
    assert_eq!(rt;
        tx.ask::<Unwanted>(call(Operation::Take, 3)),
        Ok(ShortReply::Flag(true))
    );
    assert_eq!(rt;
        tx.ask::<Unwanted>(call(Operation::Take, 3)),
        Err(Stop::Asks(call(Operation::Take, 3)))
    );
}
