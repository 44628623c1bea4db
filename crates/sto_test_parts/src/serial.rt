//! Serial runs of worked rows.
ghost use Rattle.std.specs.Prelude.{ℕ, ◌+◌, ◌-◌, ◌<◌, [], pos, length};
ghost use Rattle.sto_model.specs.TestBodies.{filling_step, IsFillingCall, choosing, IsChoosingCall};

use crate::said::{Said, are_said};
use std::alloc::Global;
use sto_model::{
    Body, Call, End, Next, Operation, Outcome, Reply, Shape, Shapes, State, serial_run,
};
use sto_part::NoMemory;

// Puts nine keys, one of them again, and asks for the length.
#[derive(Drop)]
struct Filling {
    heard: u32,
}

impl Body for Filling {
    ghost then = { λ s rs. filling_step (s.heard + length rs) };

    ghost script = { λ _ rs. filling_step (length rs) };

    ghost left = { λ s. 11 - s.heard };

    ghost left_at_reset = { λ _. 11 };

    ghost may_ask = { λ _ call. IsFillingCall call };

    fn reset(&mut self) {
        self.heard = 0;
    }

    fn next(&self) -> Next {
        let number = i64::from(self.heard) + 1;
        let (operation, a, b) = match self.heard {
            0..9 => (Operation::Put, number, number),
            9 => (Operation::Put, 8, 5),
            10 => (Operation::Len, 0, 0),
            _ => return Next::Commit,
        };
        Next::Ask(Call::new(0, operation, a, b))
    }

    fn hear(&mut self, _reply: &Reply) {
        self.heard += 1;
    }

    fn left(&self) -> u32 {
        11u32.saturating_sub(self.heard)
    }
}

// Reads a box. Where it holds less than 1 it is set to 5, else it is set to 9 and all is cancelled.
#[derive(Drop)]
struct Choosing {
    heard: u32,
    value: i64,
}

impl Body for Choosing {
    ghost then = { λ s rs. choosing s.heard s.value rs };

    ghost script = { λ _ rs. choosing 0 (pos 0) rs };

    ghost left = { λ s. 2 - s.heard };

    ghost left_at_reset = { λ _. 2 };

    ghost may_ask = { λ _ call. IsChoosingCall call };

    fn reset(&mut self) {
        self.heard = 0;
        self.value = 0;
    }

    fn next(&self) -> Next {
        let (operation, a) = match self.heard {
            0 => (Operation::Get, 0),
            1 => (Operation::Set, if self.value < 1 { 5 } else { 9 }),
            _ => {
                return if self.value < 1 {
                    Next::Commit
                } else {
                    Next::Cancel
                };
            }
        };
        Next::Ask(Call::new(0, operation, a, 0))
    }

    fn hear(&mut self, reply: &Reply) {
        if self.heard == 0 {
            self.value = match reply {
                Reply::Value(value) => *value,
                _ => 0,
            };
        }
        self.heard += 1;
    }

    fn left(&self) -> u32 {
        2u32.saturating_sub(self.heard)
    }
}

// How a run on the opening rows of one object is to end.
struct Run {
    end: End,
    replies: &'static [Said],
    rows: &'static [(i64, i64)],
}

const CANCELLED: Run = Run {
    end: End::Cancel,
    replies: &[Said::Value(1), Said::Done],
    rows: &[(0, 1)],
};

const FILLED: Run = Run {
    end: End::Commit,
    replies: &[
        Said::Done,
        Said::Done,
        Said::Done,
        Said::Done,
        Said::Done,
        Said::Done,
        Said::Done,
        Said::Done,
        Said::Full,
        Said::Done,
        Said::Value(8),
    ],
    rows: &[
        (1, 1),
        (2, 2),
        (3, 3),
        (4, 4),
        (5, 5),
        (6, 6),
        (7, 7),
        (8, 5),
    ],
};

#[test]
fn worked_rows(rt: HostRuntime) {
    let alloc = rt.alloc();
    let cases = [example_cancel(alloc), fills_a_tree(alloc)];
    assert_eq!(rt; cases, [Ok(true); 2]);
}

fn example_cancel(alloc: Global) -> Result<bool, NoMemory> {
    let mut body = Choosing { heard: 0, value: 0 };
    let mut shapes = Shapes::new(alloc);
    shapes.push(Shape::Single(1))?;
    let mut state = State::opening(alloc, &shapes)?;
    let outcome = serial_run(alloc, &mut body, &shapes, &mut state)?;
    Ok(is_as_wanted(&outcome, &state, &CANCELLED))
}

fn fills_a_tree(alloc: Global) -> Result<bool, NoMemory> {
    let mut body = Filling { heard: 4 };
    let mut shapes = Shapes::new(alloc);
    shapes.push(Shape::Tree { leaves: 2 })?;
    let mut state = State::opening(alloc, &shapes)?;
    let outcome = serial_run(alloc, &mut body, &shapes, &mut state)?;
    Ok(is_as_wanted(&outcome, &state, &FILLED))
}

fn is_as_wanted(outcome: &Outcome, state: &State, wanted: &Run) -> bool {
    outcome.end == wanted.end
        && are_said(outcome.replies.as_slice(), wanted.replies)
        && state.len() == 1
        && state.get(0).as_slice() == wanted.rows
}
