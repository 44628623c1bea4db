//! The body of a transaction whose calls come one by one.
ghost use Rattle.std.specs.Prelude.{◌≡◌, ◌≤◌, ◌<◌, ◌^◌, ◌++◌, [], ◌∷◌, length, OnOk, OnErr};
ghost use Rattle.sto_model.specs.declared.run.End.{End};

use std::alloc::Global;
use sto_model::{Body, Call, End, Next, Reply};
use sto_part::{List, NoMemory};

/// Calls that are asked one after the other, whatever is answered, and then an end. A call may be added at any time.
#[derive(Drop)]
pub struct AskedCalls {
    pub(crate) calls: List<Call>,
    /// How many of them were answered.
    pub(crate) heard: u32,
    /// What is done after them.
    pub(crate) end: End,
    ghost within: { heard ≤ length calls.items },
    ghost few: { length calls.items < 2 ^ 32 },
}

impl AskedCalls {
    /// No call, and then a commit.
    pub fn new(alloc: Global) -> AskedCalls
        ensures calls { result.calls.items ≡ [] }
        ensures heard { result.heard ≡ 0 }
        ensures end { result.end ≡ End.Commit }
    {
        AskedCalls {
            calls: List::new(alloc),
            heard: 0,
            end: End::Commit,
        }
    }

    /// The same, in a list that has no call.
    pub(crate) fn over(calls: List<Call>) -> AskedCalls
        requires { calls.items ≡ [] }
        ensures calls { result.calls.items ≡ [] }
        ensures heard { result.heard ≡ 0 }
        ensures end { result.end ≡ End.Commit }
    {
        AskedCalls {
            calls,
            heard: 0,
            end: End::Commit,
        }
    }

    /// Adds a call.
    pub fn add(&mut self, call: Call) -> Result<(), NoMemory>
        ensures calls { OnOk result (self.new.calls.items ≡ self.old.calls.items ++ call ∷ []) }
        ensures kept { OnErr result (self.new.calls.items ≡ self.old.calls.items) }
        ensures heard { self.new.heard ≡ self.old.heard }
        ensures end { self.new.end ≡ self.old.end }
    {
        if self.calls.len() == u32::MAX {
            return Err(NoMemory);
        }
        match self.calls.push(call) {
            Ok(()) => Ok(()),
            Err(_) => Err(NoMemory),
        }
    }

    /// Cancels after the calls.
    pub fn cancel(&mut self)
        ensures calls { self.new.calls ≡ self.old.calls }
        ensures heard { self.new.heard ≡ self.old.heard }
        ensures end { self.new.end ≡ End.Cancel }
    {
        self.end = End::Cancel;
    }
}

impl Body for AskedCalls {
    ghost use Rattle.sto_interactive.specs.Bodies.{next_of, script_in, left_of, left_at_reset_of, MayAskOf};

    ghost then = { next_of };

    ghost script = { script_in };

    ghost left = { left_of };

    ghost left_at_reset = { left_at_reset_of };

    ghost may_ask = { MayAskOf };

    fn reset(&mut self) {
        self.heard = 0;
    }

    fn next(&self) -> Next {
        if self.heard < self.calls.len() {
            Next::Ask(*self.calls.get(self.heard))
        } else {
            match self.end {
                End::Commit => Next::Commit,
                End::Cancel => Next::Cancel,
            }
        }
    }

    fn hear(&mut self, _reply: &Reply) {
        self.heard += 1;
    }

    fn left(&self) -> u32 {
        self.calls.len() - self.heard
    }
}
