//! A planned store is opened.
ghost use Rattle.std.specs.Prelude.{◌≡◌, ◌≤◌, ◌^◌, IfOk, IfErr, length};
ghost use Rattle.std.specs.List.{All};
ghost use Rattle.sto_model.specs.declared.call.Call.{Call};
ghost use Rattle.sto_model.specs.Objects.{machines_of, IsTaken};
ghost use Rattle.sto_store.specs.StoresLaw.{IsFitting};
ghost use Rattle.sto_shared_store.specs.Working.{IsWorker, IsFresh};
ghost use Rattle.sto_shared_store.specs.Refusals.{IsCause};

use crate::open_error::OpenError;
use crate::plan::ObjectPlan;
use crate::store::Store;
use crate::worker::{CountedRest, CountedRests};
use std::alloc::Global;
use sto_part::{List, NoMemory};
use sto_store::{Objects, build};
use sto_table::{Opened, Rests, Shared, open};
use sto_type::TxType;

// How many workers a store has at most.
const MOST_WORKERS: u32 = 65_536;

// How many tickets a worker may draw.
const TICKETS: u64 = 1 << 40;

/// A store that was just opened, and its workers, who rest.
#[derive(Drop)]
pub struct OpenedStore<T: TxType> {
    pub store: Store<T>,
    pub workers: CountedRests<T>,
}

// Makes a worker of each pass that was just opened.
fn hire<T: TxType>(
    alloc: Global,
    ty: &T,
    shared: &Shared<T>,
    rests: Rests<T>,
) -> Result<CountedRests<T>, NoMemory>
    requires fresh { All (λ r. IsFresh (T.meaning ty.now) (T.sizes ty.now) shared.now r.seat) rests.items }
    requires few { length rests.items ≤ 65536 }
    ensures fresh { IfOk result (λ l. All (λ w. IsFresh (T.meaning ty.now) (T.sizes ty.now) shared.now w.rest.seat) l.items) }
    ensures left { IfOk result (λ l. All (λ w. w.left ≡ 2 ^ 40) l.items) }
    ensures many { IfOk result (λ l. length l.items ≡ length rests.items) }
{
    let mut rests = rests;
    let mut workers = List::new(alloc);
    while let Some(rest) = rests.pop() {
        workers.push(CountedRest {
            rest,
            left: TICKETS,
        })?;
    }
    Ok(workers)
}

// Opens a store with a number of workers in range.
fn open_store<T: TxType + Drop>(
    alloc: Global,
    ty: T,
    workers: u32,
) -> Result<OpenedStore<T>, NoMemory>
    requires { (1 ≤ workers) × (workers ≤ 65536) }
    ensures ty { IfOk result (λ o. o.store.ty ≡ ty) }
    ensures passes { IfOk result (λ o. o.store.shared.table.shared.key.passes ≡ workers) }
    ensures many { IfOk result (λ o. length o.workers.items ≡ workers) }
    ensures fresh { IfOk result (λ o. All (λ w. IsFresh (T.meaning ty) (T.sizes ty) o.store.shared w.rest.seat)
        o.workers.items) }
    ensures left { IfOk result (λ o. All (λ w. w.left ≡ 2 ^ 40) o.workers.items) }
{
    let contents = ty.opening(alloc)?;
    let Opened { shared, rests } = open(alloc, &ty, &contents, workers)?;
    let hired = hire(alloc, &ty, &shared, rests)?;
    let store = Store {
        ty,
        shared,
        passes: workers,
    };
    Ok(OpenedStore {
        store,
        workers: hired,
    })
}

impl<T: TxType + Drop> Store<T> {
    /// Opens the objects of a type, with so many workers. Each worker may draw 2^40 tickets.
    pub fn open(alloc: Global, ty: T, workers: u32) -> Result<OpenedStore<T>, OpenError>
        ensures ty { IfOk result (λ o. o.store.ty ≡ ty) }
        ensures passes { IfOk result (λ o. o.store.shared.table.shared.key.passes ≡ workers) }
        ensures many { IfOk result (λ o. length o.workers.items ≡ workers) }
        ensures fresh { IfOk result (λ o. All (λ w. IsFresh (T.meaning ty) (T.sizes ty) o.store.shared w.rest.seat)
            o.workers.items) }
        ensures workers { IfOk result (λ o. All (λ w. IsWorker (T.meaning ty) (T.sizes ty) o.store.shared w.rest.seat)
            o.workers.items) }
        ensures left { IfOk result (λ o. All (λ w. w.left ≡ 2 ^ 40) o.workers.items) }
        ensures cause { IfErr result (λ error. IsCause error workers) }
    {
        if workers == 0 || MOST_WORKERS < workers {
            return Err(OpenError::Workers);
        }
        match open_store(alloc, ty, workers) {
            Ok(opened) => Ok(opened),
            Err(NoMemory) => Err(OpenError::NoMemory),
        }
    }
}

impl ObjectPlan {
    /// Opens a store of the planned objects, with so many workers. Each worker may draw 2^40 tickets.
    pub fn open(&self, alloc: Global, workers: u32) -> Result<OpenedStore<Objects>, OpenError>
        ensures machines { IfOk result (λ o. (⟦<Objects as TxType>⟧.meaning o.store.ty).machines ≡ machines_of self.now) }
        ensures takes { IfOk result (λ o. (call : Call) → IsTaken self.now call → IsFitting call
            → (⟦<Objects as TxType>⟧.meaning o.store.ty).takes call) }
        ensures passes { IfOk result (λ o. o.store.shared.table.shared.key.passes ≡ workers) }
        ensures many { IfOk result (λ o. length o.workers.items ≡ workers) }
        ensures fresh { IfOk result (λ o. All (λ w. IsFresh (⟦<Objects as TxType>⟧.meaning o.store.ty)
            (⟦<Objects as TxType>⟧.sizes o.store.ty) o.store.shared w.rest.seat) o.workers.items) }
        ensures workers { IfOk result (λ o. All (λ w. IsWorker (⟦<Objects as TxType>⟧.meaning o.store.ty)
            (⟦<Objects as TxType>⟧.sizes o.store.ty) o.store.shared w.rest.seat) o.workers.items) }
        ensures left { IfOk result (λ o. All (λ w. w.left ≡ 2 ^ 40) o.workers.items) }
        ensures cause { IfErr result (λ error. IsCause error workers) }
    {
        match self.objects(alloc) {
            Ok(objects) => Store::open(alloc, objects, workers),
            Err(NoMemory) => Err(OpenError::NoMemory),
        }
    }
}
