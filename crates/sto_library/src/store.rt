//! A store, in which its workers rest.
ghost use Rattle.std.specs.Prelude.{◌≡◌, ◌^◌, [], ◌∷◌, ◌++◌, map, length, IfOk, IfErr, OnErr, MatchOption};
ghost use Rattle.std.specs.List.{All};
ghost use Rattle.sto_history.specs.Done.{HaveHistory};
ghost use Rattle.sto_shared_store.specs.Working.{AreRowsAfter};
ghost use Rattle.sto_library.specs.Values.{Serves, TakeCalls};
ghost use Rattle.sto_library.specs.Closings.{ComesBack};
ghost use Rattle.sto_library.specs.Doings.{HasGiven, HasCause};
ghost use Rattle.sto_library.specs.Tasks.{IsDone};
ghost use Rattle.sto_library.specs.Looks.{HasLooked, looked_by};

use crate::worker::StoreWorker;
use std::alloc::Global;
use std::marker::Model;
use sto_action::{Action, Done, TransactionError};
use sto_model::{Shapes, State};
use sto_part::NoMemory;
use sto_shared_store::{CountedRest, CountedRests};
use sto_type::TxType;

/// Objects that threads share, and the workers that rest.
///
/// A worker is hired, goes to a thread, runs transactions there, and comes back. Contracts see the objects, their shapes, and what the
/// workers know that rest here.
pub struct SharedStore<T: TxType> {
    words: sto_shared_store::Store<T>,
    shapes: Shapes,
    idle: CountedRests<T>,
}

impl<T: TxType> Model for SharedStore<T> {
    ghost use Rattle.std.specs.Prelude.{map};
    ghost use Rattle.std.specs.List.{All};
    ghost use Rattle.sto_type.specs.Traits.{of_type};
    ghost use Rattle.sto_library.specs.Values.{Stored, Serves, TakeCalls};

    ghost Value = { Stored T };

    ghost view = { λ s. record { words = s.words; shapes = s.shapes.items; views = map (λ w. w.rest.seat.me.0.view) s.idle.items } };

    ghost invariant = { λ s. All (λ w. Serves (of_type T.Naming T.TxType) s.words w.rest.seat) s.idle.items
        × TakeCalls (of_type T.Naming T.TxType) s.words s.shapes.items };
}

impl<T: TxType + Drop> Drop for SharedStore<T> {
    fn drop(self) {
        let SharedStore {
            words: _words,
            shapes: _shapes,
            idle: _idle,
        } = self;
    }
}

/// Why a store was not closed.
#[derive(Drop)]
pub enum CloseError<T: TxType> {
    /// Not all its workers came back. Here it is.
    Missing(SharedStore<T>),
    /// Memory was wanting. The store is lost.
    NoMemory,
}

/// Why a look at a store gave nothing. The store goes on.
#[derive(Clone, Copy)]
pub enum LookError {
    /// No worker rests in it.
    NoWorker,
    /// The transaction was not run to its end.
    Transaction(TransactionError),
}

// What a worker gave of which a look was asked, which rests again.
type Looked<T, O, E> = (CountedRest<T>, Result<Done<O, E>, TransactionError>);

// Has a worker run code as one transaction.
fn look_by<T: TxType, K: Action>(
    alloc: Global,
    words: &sto_shared_store::Store<T>,
    shapes: &Shapes,
    worker: CountedRest<T>,
    code: &K,
) -> Looked<T, K::Out, K::Reason>
where
    K::Out: Drop,
    K::Reason: Drop,
    requires takes { TakeCalls T.TxType words.now shapes.now.items }
    requires serves { Serves T.TxType words.now worker.rest.seat }
    ensures serves { Serves T.TxType words.now result.0.rest.seat }
    ensures done { IsDone words.now shapes.now.items worker.rest.seat.me.0.view result.0.rest.seat.me.0.view
        (λ before after o. HasGiven T.TxType before after 1 (K.most code.now) (K.does code.now) o × HasCause T.TxType before after (2 ^ 16) o)
        result.1 }
{
    let mut busy = StoreWorker::new(alloc, words, shapes, worker);
    let told = busy.run(code);
    (busy.rest(), told)
}

// What a look answers by what its transaction led to.
fn looked<O: Drop, E: Drop>(
    told: Result<Done<O, E>, TransactionError>,
) -> Result<Done<O, E>, LookError>
    ensures { result ≡ looked_by told }
{
    match told {
        Ok(done) => Ok(done),
        Err(error) => Err(LookError::Transaction(error)),
    }
}

impl<T: TxType> SharedStore<T> {
    /// A store of objects of these shapes, with its workers.
    pub fn new(
        words: sto_shared_store::Store<T>,
        shapes: Shapes,
        idle: CountedRests<T>,
    ) -> SharedStore<T>
        requires workers { All (λ w. Serves T.TxType words w.rest.seat) idle.items }
        requires takes { TakeCalls T.TxType words shapes.items }
        ensures { (result.words ≡ words) × (result.shapes ≡ shapes.items) × (result.views ≡ map (λ w. w.rest.seat.me.0.view) idle.items) }
    {
        SharedStore {
            words,
            shapes,
            idle,
        }
    }

    /// A worker that rests here, if there is one.
    pub fn hire(&mut self) -> Option<CountedRest<T>>
        ensures words { (self.new.words ≡ self.old.words) × (self.new.shapes ≡ self.old.shapes) }
        ensures worker { MatchOption result (self.old.views ≡ []) (λ w. Serves T.TxType self.old.words w.rest.seat
            × (self.old.views ≡ self.new.views ++ w.rest.seat.me.0.view ∷ [])) }
    {
        self.idle.pop()
    }

    /// Takes a worker back that was hired here. Where memory is wanting it is lost.
    pub fn back(&mut self, worker: CountedRest<T>) -> Result<(), NoMemory>
        requires { Serves T.TxType self.old.words worker.rest.seat }
        ensures words { (self.new.words ≡ self.old.words) × (self.new.shapes ≡ self.old.shapes) }
        ensures worker { IfOk result (λ _. self.new.views ≡ self.old.views ++ worker.rest.seat.me.0.view ∷ []) }
        ensures lost { OnErr result (self.new.views ≡ self.old.views) }
    {
        if self.idle.len() == u32::MAX {
            return Err(NoMemory);
        }
        self.idle.push(worker)?;
        Ok(())
    }

    /// Looks at the objects without closing the store: a worker that rests here runs code as one transaction, in this thread, and rests
    /// again.
    ///
    /// What it gives is told as of `StoreWorker::run`: it is that of all valid contents that have what it looked at, after all that this
    /// worker had seen; no clause says how new they are.
    /// `Snapshot` is such code. Code that writes is taken, too.
    pub fn look<K: Action>(
        &mut self,
        alloc: Global,
        code: &K,
    ) -> Result<Done<K::Out, K::Reason>, LookError>
    where
        K::Out: Drop,
        K::Reason: Drop,
        ensures words { (self.new.words ≡ self.old.words) × (self.new.shapes ≡ self.old.shapes) }
        ensures looked { HasLooked T.TxType self.old self.new (K.most code.now) (K.does code.now) result }
    {
        // so many fit the list
        let _resting = self.idle.len();
        let Some(worker) = self.idle.pop() else {
            return Err(LookError::NoWorker);
        };
        let (worker, told) = look_by(alloc, &self.words, &self.shapes, worker, code);
        self.idle.push_spare(worker);
        looked(told)
    }

    /// How many workers rest here.
    pub fn resting(&self) -> u32
        ensures { result ≡ length self.now.views }
    {
        self.idle.len()
    }

    /// Its objects with their words, and their shapes.
    pub(crate) fn parts(&self) -> (&sto_shared_store::Store<T>, &Shapes)
        ensures words { result.0.now ≡ self.now.words }
        ensures shapes { result.1.now.items ≡ self.now.shapes }
        ensures takes { TakeCalls T.TxType result.0.now result.1.now.items }
    {
        (&self.words, &self.shapes)
    }

    /// Lends the store to a worker that was hired here.
    pub fn worker(&self, alloc: Global, idle: CountedRest<T>) -> StoreWorker<'_, T>
        requires { Serves T.TxType self.now.words idle.rest.seat }
        ensures { (result.words ≡ self.now.words) × (result.shapes ≡ self.now.shapes) × (result.seat ≡ idle.rest.seat)
            × (result.left ≡ idle.left) }
    {
        StoreWorker::new(alloc, &self.words, &self.shapes, idle)
    }
}

impl<T: TxType + Drop> SharedStore<T> {
    /// Closes the store, and answers the rows that each of its objects holds. All its workers are to rest in it; else it comes back.
    /// For want of memory it is lost.
    ///
    /// The rows are the last state of a serial history (clause `history`): whatever transactions are all that the workers have done, each
    /// is in that history its serial run, from the state right before its number, or on the state as of the number that it read.
    pub fn close(self, alloc: Global) -> Result<State, CloseError<T>>
        ensures rows { IfOk result (λ rows. AreRowsAfter T.valid (T.meaning self.words.ty) self.views rows.items) }
        ensures history { IfOk result (λ rows. HaveHistory (T.meaning self.words.ty) self.views rows.items) }
        ensures all { IfOk result (λ _. length self.views ≡ self.words.shared.table.shared.key.passes) }
        ensures missing { IfErr result (ComesBack self) }
    {
        let SharedStore {
            words,
            shapes,
            idle,
        } = self;
        match words.close(alloc, idle) {
            Ok(rows) => Ok(rows),
            Err(sto_shared_store::StoreCloseError::Missing(words, idle)) => {
                Err(CloseError::Missing(SharedStore::new(words, shapes, idle)))
            }
            Err(sto_shared_store::StoreCloseError::NoMemory) => Err(CloseError::NoMemory),
        }
    }
}
