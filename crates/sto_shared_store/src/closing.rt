//! A store is closed.
ghost use Rattle.std.specs.Prelude.{◌≡◌, ◌≢◌, ◌+◌, List, IfOk, IfErr, length, map};
ghost use Rattle.std.specs.List.{All};
ghost use Rattle.sto_history.specs.History.{Transaction, LeadTo};
ghost use Rattle.sto_history.specs.Done.{AreAllDone, HaveHistory};
ghost use Rattle.sto_shared_store.specs.Working.{gathered_onto, IsWorker, AreLastRows, AreRowsAfter};
ghost use Rattle.sto_shared_store.specs.Closings.{ComesBack};

use crate::store::Store;
use crate::store_close_error::StoreCloseError;
use crate::worker::{CountedRest, CountedRests};
use std::alloc::Global;
use sto_model::State;
use sto_part::NoMemory;
use sto_plain::Plain;
use sto_table::{Rest, Shared, close};
use sto_type::TxType;

// Gathers all passes into one, from the last worker to the first.
fn gather_all<T: TxType>(
    ty: &T,
    shared: &Shared<T>,
    last: CountedRest<T>,
    others: CountedRests<T>,
) -> Rest<T>
    requires last { IsWorker (T.meaning ty.now) (T.sizes ty.now) shared.now last.rest.seat }
    requires others { All (λ w. IsWorker (T.meaning ty.now) (T.sizes ty.now) shared.now w.rest.seat) others.items }
    ensures worker { IsWorker (T.meaning ty.now) (T.sizes ty.now) shared.now result.seat }
    ensures view { result.seat.me.0.view ≡ gathered_onto (map (λ w. w.rest.seat.me.0.view) others.items) last.rest.seat.me.0.view }
    ensures gathered { result.seat.me.0.view.gathered ≡ 1 + length others.items }
{
    let mut others = others;
    let mut rest = last.rest;
    while let Some(other) = others.pop() {
        rest = shared.gather(rest, other.rest);
    }
    rest
}

// The rows of words that one pass closes.
fn last_rows<T: TxType>(
    alloc: Global,
    ty: &T,
    shared: Shared<T>,
    rest: Rest<T>,
) -> Result<State, NoMemory>
    requires worker { IsWorker (T.meaning ty.now) (T.sizes ty.now) shared rest.seat }
    requires all { rest.seat.me.0.view.gathered ≡ shared.table.shared.key.passes }
    ensures rows { IfOk result (λ rows. AreLastRows T.valid (T.meaning ty.now) rest.seat.me.0.view rows.items) }
    ensures history { IfOk result (λ rows. (ts : List Transaction) → AreAllDone (T.meaning ty.now) rest.seat.me.0.view ts
        → LeadTo (T.meaning ty.now).machines ts rows.items) }
{
    let closed = close(alloc, shared, rest)?;
    let words = match Plain::reopen(closed) {
        Ok(words) => words,
        Err(_) => return Err(NoMemory),
    };
    let contents = words.contents()?;
    ty.rows_at(alloc, &contents, 0)
}

impl<T: TxType + Drop> Store<T> {
    /// Closes the store, by all its workers, and answers the rows that its objects hold.
    ///
    /// The rows are the last state of a serial history (clause `history`): whatever transactions are all that the workers have done, each
    /// is in that history its serial run, from the state right before its number, or on the state as of the number that it read.
    ///
    /// Where a worker is missing, the store and the workers come back. Where memory is wanting they are lost.
    pub fn close(self, alloc: Global, workers: CountedRests<T>) -> Result<State, StoreCloseError<T>>
        requires { All (λ w. IsWorker (T.meaning self.ty) (T.sizes self.ty) self.shared w.rest.seat) workers.items }
        ensures rows { IfOk result (λ rows. AreRowsAfter T.valid (T.meaning self.ty)
            (map (λ w. w.rest.seat.me.0.view) workers.items) rows.items) }
        ensures history { IfOk result (λ rows. HaveHistory (T.meaning self.ty) (map (λ w. w.rest.seat.me.0.view) workers.items)
            rows.items) }
        ensures all { IfOk result (λ rows. length workers.items ≡ self.shared.table.shared.key.passes) }
        ensures missing { IfErr result (ComesBack self workers) }
    {
        let mut workers = workers;
        if workers.len() != self.passes {
            return Err(StoreCloseError::Missing(self, workers));
        }
        let Some(last) = workers.pop() else {
            unreachable!()
        };
        let Store { ty, shared, .. } = self;
        let rest = gather_all(&ty, &shared, last, workers);
        match last_rows(alloc, &ty, shared, rest) {
            Ok(rows) => Ok(rows),
            Err(NoMemory) => Err(StoreCloseError::NoMemory),
        }
    }
}
