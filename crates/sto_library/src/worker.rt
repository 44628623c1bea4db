//! A worker at its store.
ghost use Rattle.std.specs.Prelude.{◌≡◌, ◌<◌, ◌^◌};
ghost use Rattle.sto_history.specs.Added.{Grows};
ghost use Rattle.sto_action.specs.Atomic.{HasLed, IsUndisturbed};
ghost use Rattle.sto_library.specs.Values.{Serves, TakeCalls};
ghost use Rattle.sto_library.specs.Doings.{HasGiven};

use crate::waits::Waits;
use std::alloc::Global;
use std::marker::Model;
use sto_action::{Action, ActionLists, Done, TransactionError, atomically};
use sto_model::Shapes;
use sto_shared_store::{CountedPass, CountedRest};
use sto_transaction::AttemptWatch;
use sto_type::TxType;

// How many attempts of a transaction are made.
const TRIES: u32 = 1 << 16;

/// A worker that runs transactions on the objects of its store.
#[derive(Drop)]
pub struct StoreWorker<'s, T: TxType> {
    alloc: Global,
    words: &'s sto_shared_store::Store<T>,
    shapes: &'s Shapes,
    busy: CountedPass<'s, T>,
    memory: ActionLists,
}

impl<'s, T: TxType> Model for StoreWorker<'s, T> {
    ghost use Rattle.std.specs.Prelude.{◌≡◌, ◌≤◌};
    ghost use Rattle.sto_type.specs.Traits.{of_type};
    ghost use Rattle.sto_library.specs.Values.{Working, Serves, TakeCalls};

    ghost Value = { Working T };

    ghost view = { λ w. record { words = w.words.now; shapes = w.shapes.now.items; seat = w.busy.pass.seat; left = w.busy.left } };

    ghost invariant = { λ w. Serves (of_type T.Naming T.TxType) w.words.now w.busy.pass.seat
        × TakeCalls (of_type T.Naming T.TxType) w.words.now w.shapes.now.items
        × (w.busy.left ≤ w.busy.pass.seat.me.0.view.draws)
        × (w.busy.pass.shared.now.table.shared.key.passes ≡ w.words.now.shared.table.shared.key.passes) };
}

impl<'s, T: TxType> StoreWorker<'s, T> {
    /// A worker at its store.
    pub(crate) fn new(
        alloc: Global,
        words: &'s sto_shared_store::Store<T>,
        shapes: &'s Shapes,
        idle: CountedRest<T>,
    ) -> StoreWorker<'s, T>
        requires serves { Serves T.TxType words.now idle.rest.seat }
        requires takes { TakeCalls T.TxType words.now shapes.now.items }
        ensures { (result.words ≡ words.entry.now) × (result.shapes ≡ shapes.entry.now.items) × (result.seat ≡ idle.rest.seat)
            × (result.left ≡ idle.left) }
    {
        StoreWorker {
            alloc,
            words,
            shapes,
            busy: words.resume(idle),
            memory: ActionLists::new(alloc),
        }
    }

    /// Runs code as one transaction: attempts are made until one is not aborted by what others did.
    ///
    /// The value is that of the code run alone on all valid contents that have what it looked at: those right before the transaction's
    /// ticket, or of a transaction that only reads, those of the number as of which it read; after all that this worker had seen. No clause
    /// says how new these are. On each error nothing took effect, and but for `Worn` the worker can go on; `Busy` says how many attempts were
    /// made, and of which object the last one found a part locked or with another ticket. Whatever happened, the worker ran this code and
    /// nothing else (clause `given`).
    pub fn run<K: Action>(&mut self, code: &K) -> Result<Done<K::Out, K::Reason>, TransactionError>
    where
        K::Out: Drop,
        K::Reason: Drop,
        ensures led { HasLed (T.meaning self.old.words.ty) self.old.seat.me.0.view self.new.seat.me.0.view (2 ^ 16) self.new.left
            self.old.shapes (K.most code.now) (K.does code.now) result }
        ensures given { HasGiven T.TxType self.old self.new 1 (K.most code.now) (K.does code.now) result }
        ensures grows { Grows self.old.seat.me.0.view self.new.seat.me.0.view }
        ensures alone { self.old.words.shared.table.shared.key.passes ≡ 1 → IsUndisturbed result }
        ensures same { (self.new.words ≡ self.old.words) × (self.new.shapes ≡ self.old.shapes) }
    {
        self.run_with(TRIES, &mut Waits::new(), code)
    }

    /// The same with at most so many attempts, one at least, and with something else to do between them.
    pub fn run_with<K: Action, W: AttemptWatch>(
        &mut self,
        tries: u32,
        watch: &mut W,
        code: &K,
    ) -> Result<Done<K::Out, K::Reason>, TransactionError>
    where
        K::Out: Drop,
        K::Reason: Drop,
        requires some { 0 < tries }
        ensures led { HasLed (T.meaning self.old.words.ty) self.old.seat.me.0.view self.new.seat.me.0.view tries self.new.left
            self.old.shapes (K.most code.now) (K.does code.now) result }
        ensures given { HasGiven T.TxType self.old self.new 1 (K.most code.now) (K.does code.now) result }
        ensures grows { Grows self.old.seat.me.0.view self.new.seat.me.0.view }
        ensures alone { self.old.words.shared.table.shared.key.passes ≡ 1 → IsUndisturbed result }
        ensures same { (self.new.words ≡ self.old.words) × (self.new.shapes ≡ self.old.shapes) }
    {
        self.lead(tries, watch, code)
    }

    // Runs code as one transaction.
    fn lead<K: Action, W: AttemptWatch>(
        &mut self,
        tries: u32,
        watch: &mut W,
        code: &K,
    ) -> Result<Done<K::Out, K::Reason>, TransactionError>
    where
        K::Out: Drop,
        K::Reason: Drop,
        requires some { 0 < tries }
        ensures led { HasLed (T.meaning self.old.words.ty) self.old.seat.me.0.view self.new.seat.me.0.view tries self.new.left
            self.old.shapes (K.most code.now) (K.does code.now) result }
        ensures grows { Grows self.old.seat.me.0.view self.new.seat.me.0.view }
        ensures alone { self.old.words.shared.table.shared.key.passes ≡ 1 → IsUndisturbed result }
        ensures same { (self.new.words ≡ self.old.words) × (self.new.shapes ≡ self.old.shapes) }
    {
        let busy = &mut self.busy;
        atomically(
            self.alloc,
            &self.words.ty,
            self.shapes,
            &mut busy.pass,
            &mut busy.left,
            tries,
            watch,
            &mut self.memory,
            code,
        )
    }

    /// How many attempts it may still make.
    pub fn left(&self) -> u64
        ensures { result ≡ self.now.left }
    {
        self.busy.left
    }

    /// Ends its work at the store. It can be given back, or come again.
    pub fn rest(self) -> CountedRest<T>
        ensures serves { Serves T.TxType self.entry.words result.rest.seat }
        ensures seat { (result.rest.seat ≡ self.entry.seat) × (result.left ≡ self.entry.left) }
    {
        let StoreWorker { busy, .. } = self;
        busy.rest()
    }
}
