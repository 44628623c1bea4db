//! A running pass.
ghost use Rattle.std.specs.Prelude.{◌≡◌, ◌<◌, ◌≤◌, ◌^◌, [], pos, refl};
ghost use Rattle.std.proofs.Common.{◌∙◌};
ghost use Rattle.sto_core.specs.Event.{Start, Open, Word, Close, Lock, Test, Draw, Check, Decide, Put, Release, Unlock, Renew, Recheck};
ghost use Rattle.sto_table.specs.Fits.{IsSame, same_through};
ghost use Rattle.sto_core.specs.Remembered.{Remembers};

use crate::shared::{Rest, Shared};
use crate::stance::Stance;
use atomic_table::Seat;
use std::marker::{Brand, PhantomData};
use sto_core::{Cells, CommitLists};
use sto_part::Naming;
use sto_version::Version;

/// A running pass, which borrows the words.
#[derive(Drop)]
pub struct Pass<'t, T: Naming> {
    pub shared: &'t Shared<T>,
    pub seat: Seat<(), Stance>,
    pub number: u32,
    // The ticket that it drew last.
    pub(crate) ticket: u64,
    ghost table: { seat.table_id ≡ shared.now.table.shared.table_id },
    ghost bare: { seat.me.1 ≡ [] },
    ghost live: { 0 < seat.me.0.view.gathered },
    ghost opening: { seat.me.0.view.opening ≡ shared.now.table.shared.key.opening.value.items },
    ghost numbered: { seat.me.0.view.number ≡ number },
    ghost listed: { number < shared.now.table.shared.key.passes },
    ghost remembers: { Remembers ticket seat.me.0.view.phase },
    ghost small: { ticket ≤ 2 ^ 56 },
}

impl<'t, T: Naming> Cells<T> for Pass<'t, T> {
    ghost view = { λ p. p.seat.me.0.view };

    ghost passes = { λ p. p.shared.now.table.shared.key.passes };

    ghost same = { λ p q. IsSame p.shared.now.table.shared.key.passes p.seat q.shared.now.table.shared.key.passes q.seat };

    ghost same_as_itself = { λ p. (refl, refl, refl, refl, refl, refl) };

    ghost same_through = { λ a b c. same_through a.shared.now.table.shared.key.passes a.seat b.shared.now.table.shared.key.passes b.seat
        c.shared.now.table.shared.key.passes c.seat };

    ghost same_passes = { λ a b s. s.0 };

    fn start(&mut self) -> u64 {
        self.shared.load_clock::<Brand>(&mut self.seat)
    }

    fn open(&mut self, part: u32) -> Version {
        Version(self.shared.load_version::<Brand>(&mut self.seat, part))
    }

    fn word(&mut self, part: u32, word: u32) -> i64 {
        self.shared
            .load_word::<Brand>(&mut self.seat, part, word)
            .cast_signed()
    }

    fn close(&mut self, part: u32) -> Version {
        Version(self.shared.load_version::<Brand>(&mut self.seat, part))
    }

    fn renew(&mut self) -> u64 {
        self.shared.load_clock::<Brand>(&mut self.seat)
    }

    fn recheck(&mut self, part: u32) -> Version {
        Version(self.shared.load_version::<Brand>(&mut self.seat, part))
    }

    fn lock(&mut self, part: u32) -> Version {
        Version(self.shared.set_lock::<Brand>(&mut self.seat, part))
    }

    fn test(&mut self, part: u32) -> Version {
        Version(self.shared.load_version::<Brand>(&mut self.seat, part))
    }

    fn draw_by<L: CommitLists>(&mut self, lists: &L) -> u64 {
        let clock = self.shared.raise_clock::<Brand, L>(&mut self.seat, lists);
        self.ticket = clock + 1;
        self.ticket
    }

    fn check(&mut self, part: u32) -> Version {
        Version(self.shared.load_version::<Brand>(&mut self.seat, part))
    }

    fn decide(&mut self, commit: bool) {
        self.shared
            .store_status::<Brand>(&mut self.seat, self.number, self.ticket, commit);
    }

    fn put(&mut self, part: u32, word: u32, value: i64) {
        self.shared
            .store_word::<Brand>(&mut self.seat, part, word, value);
    }

    fn release(&mut self, part: u32) {
        self.shared
            .store_version::<Brand>(&mut self.seat, part, self.ticket);
    }

    fn unlock(&mut self, part: u32) {
        self.shared.clear_lock::<Brand>(&mut self.seat, part);
    }
}
