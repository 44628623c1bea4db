//! What a handle of C holds.
ghost use Rattle.std.specs.Prelude.{◌≡◌};

use crate::crossing::RowsOut;
use sto_shared_store::{OwnedStore, OwnedWorker};
use sto_store::Objects;

/// How many objects a store has.
#[derive(Clone, Copy)]
pub struct ObjectCounts {
    pub all: u32,
    /// How many of them hold one number: the boxes and the counters, which stand first.
    pub scalars: u32,
}

/// A store, with how many objects it has.
pub struct StoreHandle {
    pub(crate) store: OwnedStore<Objects>,
    pub(crate) objects: ObjectCounts,
}

impl StoreHandle {
    /// The store, and how many objects it has.
    pub(crate) fn into_parts(self) -> (OwnedStore<Objects>, ObjectCounts)
        ensures { (result.0 ≡ self.store) × (result.1 ≡ self.objects) }
    {
        let StoreHandle { store, objects } = self;
        (store, objects)
    }
}

impl Drop for StoreHandle {
    fn drop(self) {
        let StoreHandle {
            store: _store,
            objects: _,
        } = self;
    }
}

/// A worker, with how many objects its store has.
pub struct WorkerHandle {
    pub(crate) worker: OwnedWorker<Objects>,
    pub(crate) objects: ObjectCounts,
}

impl WorkerHandle {
    /// The worker, and how many objects its store has.
    pub(crate) fn into_parts(self) -> (OwnedWorker<Objects>, ObjectCounts)
        ensures { (result.0 ≡ self.worker) × (result.1 ≡ self.objects) }
    {
        let WorkerHandle { worker, objects } = self;
        (worker, objects)
    }
}

impl Drop for WorkerHandle {
    fn drop(self) {
        let WorkerHandle {
            worker: _worker,
            objects: _,
        } = self;
    }
}

/// What a handle holds.
#[derive(Drop)]
pub enum HandleContent {
    Nothing,
    Store(StoreHandle),
    Worker(WorkerHandle),
    /// The rows of a store that was closed.
    Closed(RowsOut),
}
