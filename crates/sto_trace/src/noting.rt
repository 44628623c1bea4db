//! Passes whose last event is noted.
ghost use Rattle.sto_trace.specs.Noted.{Notes, notes_nothing, notes_further};

use crate::Deed;
use sto_core::{Cells, CommitLists};
use sto_part::Naming;
use sto_version::Version;

/// A pass, and what the last event did that was made on it since it was taken in.
#[derive(Drop)]
pub struct Noting<C> {
    pub cells: C,
    pub deed: Option<Deed>,
}

impl<T: Naming, C: Cells<T>> Cells<T> for Noting<C> {
    ghost view = { λ a. C.view a.cells };

    ghost passes = { λ a. C.passes a.cells };

    // What is noted is the last of the deeds that have led on.
    ghost same = { λ a b. C.same a.cells b.cells
        × Notes T.valid (C.passes a.cells) (C.view a.cells) (C.view b.cells) a.deed b.deed };

    ghost same_as_itself = { λ a. (C.same_as_itself a.cells, notes_nothing T.valid (C.passes a.cells) (C.view a.cells) a.deed) };

    ghost same_through = { λ a b c s t. (
      C.same_through a.cells b.cells c.cells s.0 t.0,
      notes_further T.valid (C.passes a.cells) (C.passes b.cells) (C.view a.cells) (C.view b.cells) (C.view c.cells) a.deed b.deed c.deed
          (C.same_passes a.cells b.cells s.0) s.1 t.1,
    ) };

    ghost same_passes = { λ a b s. C.same_passes a.cells b.cells s.0 };

    fn start(&mut self) -> u64 {
        let clock = self.cells.start();
        self.deed = Some(Deed::Start { clock });
        clock
    }

    fn open(&mut self, part: u32) -> Version {
        let version = self.cells.open(part);
        self.deed = Some(Deed::Open { part, version });
        version
    }

    fn word(&mut self, part: u32, word: u32) -> i64 {
        let value = self.cells.word(part, word);
        self.deed = Some(Deed::Word { part, word, value });
        value
    }

    fn close(&mut self, part: u32) -> Version {
        let version = self.cells.close(part);
        self.deed = Some(Deed::Close { part, version });
        version
    }

    fn renew(&mut self) -> u64 {
        let clock = self.cells.renew();
        self.deed = Some(Deed::Renew { clock });
        clock
    }

    fn recheck(&mut self, part: u32) -> Version {
        let version = self.cells.recheck(part);
        self.deed = Some(Deed::Recheck { part, version });
        version
    }

    fn lock(&mut self, part: u32) -> Version {
        let version = self.cells.lock(part);
        self.deed = Some(Deed::Lock { part, version });
        version
    }

    fn test(&mut self, part: u32) -> Version {
        let version = self.cells.test(part);
        self.deed = Some(Deed::Test { part, version });
        version
    }

    fn draw_by<L: CommitLists>(&mut self, lists: &L) -> u64 {
        let ticket = self.cells.draw_by(lists);
        self.deed = Some(Deed::Draw { ticket });
        ticket
    }

    fn check(&mut self, part: u32) -> Version {
        let version = self.cells.check(part);
        self.deed = Some(Deed::Check { part, version });
        version
    }

    fn decide(&mut self, commit: bool) {
        self.cells.decide(commit);
        self.deed = Some(Deed::Decide { commit });
    }

    fn put(&mut self, part: u32, word: u32, value: i64) {
        self.cells.put(part, word, value);
        self.deed = Some(Deed::Put { part, word, value });
    }

    fn release(&mut self, part: u32) {
        self.cells.release(part);
        self.deed = Some(Deed::Release { part });
    }

    fn unlock(&mut self, part: u32) {
        self.cells.unlock(part);
        self.deed = Some(Deed::Unlock { part });
    }
}
