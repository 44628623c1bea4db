//! Workers of a store.
ghost use Rattle.std.specs.Prelude.{◌≡◌, ◌↔◌, ◌≤◌, IsTrue};
ghost use Rattle.sto_core.specs.Allowed.{IsIdle};

use sto_part::{List, Naming};
use sto_table::{Pass, Rest};

/// A worker that rests, and borrows nothing. It may go to another thread.
#[derive(Drop)]
pub struct CountedRest<T: Naming> {
    /// Its pass.
    pub rest: Rest<T>,
    /// How many tickets it may still draw. A transaction draws at most one in each attempt.
    pub left: u64,
    ghost enough: { left ≤ rest.seat.me.0.view.draws },
    ghost one: { rest.seat.me.0.view.gathered ≡ 1 },
}

/// Workers that rest.
pub type CountedRests<T> = List<CountedRest<T>>;

/// A worker that runs a transaction.
#[derive(Drop)]
pub struct CountedPass<'s, T: Naming> {
    /// Its pass.
    pub pass: Pass<'s, T>,
    /// How many tickets it may draw after this transaction.
    pub left: u64,
    ghost one: { pass.seat.me.0.view.gathered ≡ 1 },
}

impl<T: Naming> CountedRest<T> {
    /// Whether it has no ticket left.
    pub fn is_worn(&self) -> bool
        ensures { IsTrue result ↔ (self.now.left ≡ 0) }
    {
        self.left == 0
    }
}

impl<T: Naming> CountedPass<'_, T> {
    /// Rests, as between two transactions, or while one waits for its next call.
    pub fn rest(self) -> CountedRest<T>
        requires idle { IsIdle self.pass.seat.me.0.view.phase }
        requires enough { self.left ≤ self.pass.seat.me.0.view.draws }
        ensures seat { result.rest.seat ≡ self.entry.pass.seat }
        ensures left { result.left ≡ self.entry.left }
    {
        let CountedPass { pass, left } = self;
        CountedRest {
            rest: pass.rest(),
            left,
        }
    }
}
