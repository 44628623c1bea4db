//! Code as the body of a transaction.
ghost use Rattle.std.specs.Prelude.{◌≡◌, ◌-◌, ◌+◌, ◌≤◌, ◌++◌, ◌<◌, ◌^◌, map, length};
ghost use Rattle.sto_model.specs.Run.{MayAsk};
ghost use Rattle.sto_action.specs.Progs.{is_taken, next_by as by_run, IsTakenCall};

use crate::code::Action;
use crate::short_reply::{ShortReply, shortened};
use crate::tx::{Stop, Tx};
use sto_model::{Body, Call, Next, Reply, Shapes};
use sto_part::{List, NoMemory};

/// Code with what its calls were answered so far.
#[derive(Drop)]
pub struct ActionBody<'c, K> {
    pub code: &'c K,
    /// The shapes of the objects that it asks.
    pub shapes: &'c Shapes,
    pub heard: List<ShortReply>,
    /// How many calls it may ask.
    pub most: u32,
    ghost room: { most ≤ length heard.items + heard.spare },
    ghost few: { length heard.items ≤ most },
    ghost small: { most < 2 ^ 32 },
}

impl<'c, K: Action> ActionBody<'c, K> {
    ghost use Rattle.std.specs.Prelude.{IfOk};

    /// The code, at its beginning. What it hears goes into this list, which is cleared; where memory is wanting its room is lost.
    pub fn new(
        heard: List<ShortReply>,
        code: &'c K,
        shapes: &'c Shapes,
    ) -> Result<ActionBody<'c, K>, NoMemory>
        ensures { IfOk result (λ b. (b.code.now ≡ code.entry.now) × (b.shapes.now ≡ shapes.entry.now) × (b.most ≡ K.most code.entry.now)) }
    {
        let most = code.most();
        let mut heard = heard;
        heard.clear();
        heard.reserve(most)?;
        Ok(ActionBody {
            code,
            shapes,
            heard,
            most,
        })
    }
}

impl<K: Action> Body for ActionBody<'_, K>
where
    K::Out: Drop,
    K::Reason: Drop,
{
    ghost use Rattle.sto_action.specs.Shortened.{short_of};
    ghost use Rattle.sto_action.specs.Progs.{next_within, IsTakenCall};

    ghost then = { λ b rs. next_within b.shapes.now.items b.most (K.does b.code.now) (b.heard.items ++ map short_of rs) };

    ghost script = { λ b rs. next_within b.shapes.now.items b.most (K.does b.code.now) (map short_of rs) };

    ghost left = { λ b. b.most - length b.heard.items };

    ghost left_at_reset = { λ b. b.most };

    ghost may_ask = { λ b call. IsTakenCall b.shapes.now.items call };

    fn reset(&mut self) {
        self.heard.clear();
    }

    fn next(&self) -> Next {
        let mut tx = Tx::of_heard(self.heard.as_slice());
        let room = self.heard.len() < self.most;
        next_by(self.shapes, room, self.code.run(&mut tx))
    }

    fn hear(&mut self, reply: &Reply) {
        self.heard.push_spare(shortened(reply));
    }

    fn left(&self) -> u32 {
        self.most - self.heard.len()
    }
}

// Whether the object of the call takes it.
fn is_taken(shapes: &Shapes, call: Call) -> bool
    ensures { result ≡ is_taken shapes.now.items call }
{
    match shapes.as_slice().get(call.object as usize) {
        Some(shape) => shape.takes_call(&call),
        None => false,
    }
}

// What is done next by what a run answered.
fn next_by<R: Drop, E: Drop>(shapes: &Shapes, room: bool, ran: Result<R, Stop<E>>) -> Next
    ensures next { result ≡ by_run shapes.now.items room ran }
    ensures may { MayAsk (IsTakenCall shapes.now.items) result }
{
    match ran {
        Ok(_) => Next::Commit,
        Err(Stop::Asks(call)) => {
            if room && is_taken(shapes, call) {
                Next::Ask(call)
            } else {
                Next::Cancel
            }
        }
        Err(Stop::Cancels(_)) => Next::Cancel,
    }
}
