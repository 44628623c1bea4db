//! Runs that change nothing.
ghost use Rattle.std.specs.Prelude.{◌≡◌, length, IfOk, map};
ghost use Rattle.sto_model.specs.PlainReplies.{plain_reply};
ghost use Rattle.sto_model.specs.Objects.{machines_of, IsTaken};
ghost use Rattle.sto_model.specs.Serial.{serial_run_of};
ghost use Rattle.sto_model.specs.declared.call.Call.{Call};

use std::alloc::Global;
use sto_model::{Body, Next, Replies, Reply, Shapes, State, serial_run};
use sto_part::NoMemory;

/// A body that cancels where the one that it runs commits.
#[derive(Drop)]
pub(crate) struct OpenReplies<B> {
    body: B,
}

impl<B: Body> Body for OpenReplies<B> {
    ghost use Rattle.sto_checker.specs.Tentative.{uncommitted};

    ghost then = { λ s rs. uncommitted (B.then s.body rs) };

    ghost script = { λ s rs. uncommitted (B.script s.body rs) };

    ghost left = { λ s. B.left s.body };

    ghost left_at_reset = { λ s. B.left_at_reset s.body };

    ghost may_ask = { λ s call. B.may_ask s.body call };

    fn reset(&mut self) {
        self.body.reset();
    }

    fn next(&self) -> Next {
        match self.body.next() {
            Next::Ask(call) => Next::Ask(call),
            Next::Commit | Next::Cancel => Next::Cancel,
        }
    }

    fn hear(&mut self, reply: &Reply) {
        self.body.hear(reply);
    }

    fn left(&self) -> u32 {
        self.body.left()
    }
}

/// What a body hears from a state, which stays as it is.
pub fn replies_of<B: Body + Drop>(
    alloc: Global,
    body: B,
    shapes: &Shapes,
    state: &mut State,
) -> Result<Replies, NoMemory>
    requires taken { (call : Call) → B.may_ask body call → IsTaken shapes.now.items call }
    requires objects { length state.old.items ≡ length shapes.now.items }
    ensures replies { IfOk result (λ rs. map plain_reply rs.items ≡
        (serial_run_of (machines_of shapes.now.items) (B.left_at_reset body) (B.script body) state.old.items).replies) }
    ensures state { state.new ≡ state.old }
{
    let mut tentative = OpenReplies { body };
    let outcome = serial_run(alloc, &mut tentative, shapes, state)?;
    Ok(outcome.replies)
}
