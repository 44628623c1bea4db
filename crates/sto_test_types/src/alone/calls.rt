//! A body that asks given calls, whatever they answer.
ghost use Rattle.std.specs.Prelude.{◌≡◌, ◌+◌, ◌-◌, ◌<◌, ◌^◌, length, IfOk, slice_get};
ghost use Rattle.std.specs.List.{Contains};
ghost use Rattle.sto_test_alone.specs.GivenCalls.{asked};

use std::alloc::Global;
use sto_model::{Body, Call, End, Next, Reply};
use sto_part::{List, NoMemory};

#[derive(Drop)]
pub(crate) struct Calls {
    calls: List<Call>,
    end: End,
    heard: u32,
}

impl Calls {
    pub(crate) fn new(alloc: Global, calls: &[Call], end: End) -> Result<Calls, NoMemory>
        requires { length calls.now < 2 ^ 32 }
        ensures { IfOk result (λ made. made.calls.items ≡ calls.now) }
    {
        let mut list = List::new(alloc);
        list.extend(calls)?;
        Ok(Calls {
            calls: list,
            end,
            heard: 0,
        })
    }
}

impl Body for Calls {
    ghost then = { λ s rs. asked s.end (slice_get s.calls.items (s.heard + length rs)) };

    ghost script = { λ s rs. asked s.end (slice_get s.calls.items (length rs)) };

    ghost left = { λ s. length s.calls.items - s.heard };

    ghost left_at_reset = { λ s. length s.calls.items };

    ghost may_ask = { λ s call. Contains s.calls.items call };

    fn reset(&mut self) {
        self.heard = 0;
    }

    fn next(&self) -> Next {
        if self.heard < self.calls.len() {
            Next::Ask(*self.calls.get(self.heard))
        } else if self.end == End::Commit {
            Next::Commit
        } else {
            Next::Cancel
        }
    }

    fn hear(&mut self, _reply: &Reply) {
        let _calls = self.calls.len();
        self.heard += 1;
    }

    fn left(&self) -> u32 {
        self.calls.len().saturating_sub(self.heard)
    }
}
