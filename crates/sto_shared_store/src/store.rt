//! Objects, and the words that threads share.
ghost use Rattle.std.specs.Prelude.{◌≡◌, ◌+◌, ◌<◌, IfOk, IfErr};
ghost use Rattle.sto_table.specs.Rests.{IsOf};

use crate::worker::{CountedPass, CountedRest};
use sto_part::Naming;
use sto_table::Shared;

/// Objects of a type, and their words. Threads share it by `&` or by an `Arc`.
#[derive(Drop)]
pub struct Store<T: Naming> {
    /// The objects.
    pub ty: T,
    /// Their words.
    pub shared: Shared<T>,
    /// How many workers it was opened with.
    pub passes: u32,
    ghost counted: { passes ≡ shared.table.shared.key.passes },
    ghost some: { 0 < passes },
}

impl<T: Naming> Store<T> {
    /// Begins a transaction of a worker: its pass is at rest, and has a ticket left to draw. A worker that has none left comes back.
    pub fn begin(&self, worker: CountedRest<T>) -> Result<CountedPass<'_, T>, CountedRest<T>>
        requires { IsOf self.now.shared worker.rest.seat }
        ensures seat { IfOk result (λ busy. busy.pass.seat ≡ worker.rest.seat) }
        ensures passes { IfOk result (λ busy. busy.pass.shared.now.table.shared.key.passes ≡ self.now.shared.table.shared.key.passes) }
        ensures left { IfOk result (λ busy. busy.left + 1 ≡ worker.left) }
        ensures draws { IfOk result (λ busy. busy.left < busy.pass.seat.me.0.view.draws) }
        ensures worn { IfErr result (λ idle. (idle ≡ worker) × (idle.left ≡ 0)) }
    {
        if worker.is_worn() {
            return Err(worker);
        }
        let CountedRest { rest, left } = worker;
        Ok(CountedPass {
            pass: self.shared.pass(rest),
            left: left - 1,
        })
    }

    /// Goes on with a transaction of a worker, which was begun and waits.
    pub fn resume(&self, worker: CountedRest<T>) -> CountedPass<'_, T>
        requires { IsOf self.now.shared worker.rest.seat }
        ensures seat { result.pass.seat ≡ worker.rest.seat }
        ensures passes { result.pass.shared.now.table.shared.key.passes ≡ self.now.shared.table.shared.key.passes }
        ensures left { result.left ≡ worker.left }
    {
        let CountedRest { rest, left } = worker;
        CountedPass {
            pass: self.shared.pass(rest),
            left,
        }
    }
}
