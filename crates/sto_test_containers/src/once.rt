//! A transaction of one call.
ghost use Rattle.std.specs.Prelude.{◌≡◌, false, if◌then◌else◌};
ghost use Rattle.sto_model.specs.declared.body.Next.TheVariants.{Commit};
ghost use Rattle.sto_test_containers.specs.Once.{asks_once};

use sto_model::{Body, Call, Next, Reply};

/// Asks one call, and commits.
#[derive(Drop)]
pub(crate) struct Once {
    call: Call,
    heard: bool,
}

impl Once {
    pub(crate) fn new(call: &Call) -> Once
        ensures { result ≡ record { call = call.now; heard = false } }
    {
        Once {
            call: *call,
            heard: false,
        }
    }
}

impl Body for Once {
    ghost then = { λ s rs. if s.heard then Commit else asks_once s.call rs };

    ghost script = { λ s. asks_once s.call };

    ghost left = { λ s. if s.heard then 0 else 1 };

    ghost left_at_reset = { λ s. 1 };

    ghost may_ask = { λ s call. call ≡ s.call };

    fn reset(&mut self) {
        self.heard = false;
    }

    fn next(&self) -> Next {
        if self.heard {
            Next::Commit
        } else {
            Next::Ask(self.call)
        }
    }

    fn hear(&mut self, _reply: &Reply) {
        self.heard = true;
    }

    fn left(&self) -> u32 {
        if self.heard { 0 } else { 1 }
    }
}
