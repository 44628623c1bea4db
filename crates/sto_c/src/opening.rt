//! A store is opened and closed, and its workers are given out.
ghost use Rattle.std.specs.Prelude.{◌≡◌, ◌<◌, ◌≤◌, ◌+◌, ◌^◌, IfOk, IfErr};
ghost use Rattle.sto_c.specs.declared.content.HandleContent.TheVariants.{Store};
ghost use Rattle.sto_c.specs.Content.{IsHeld, IsStore, IsWorker};
ghost use Rattle.sto_model.specs.Sizes.{rank};
ghost use Rattle.sto_c.specs.Stores.{
  HasShapes,
  ArePlanned,
  AreScalars,
  IsUnplanned,
  IsUnopened,
  IsSameStore,
  IsGathered,
  HasHired,
  IsUnhiredOf,
  HasClosedStore,
};

use crate::content::{HandleContent, ObjectCounts, StoreHandle, WorkerHandle};
use crate::crossing::ShapeIn;
use crate::status::Status;
use crate::telling::all_rows;
use std::alloc::Global;
use sto_model::Shape;
use sto_part::NoMemory;
use sto_shared_store::{HireError, ObjectPlan, OwnedCloseError, OwnedStore};

// How many scalars there are with one more object.
fn count_scalar(scalars: u32, shape: &Shape) -> u32
    requires { scalars + 1 < 2 ^ 32 }
    ensures scalar { rank shape.now < 2 → result ≡ scalars + 1 }
    ensures other { 2 ≤ rank shape.now → result ≡ scalars }
{
    if shape.rank() < 2 {
        scalars + 1
    } else {
        scalars
    }
}

// The plan of these objects, and how many of them are scalars.
fn plan_of(alloc: Global, shapes: &[ShapeIn]) -> Result<(ObjectPlan, u32), Status>
    ensures plan { IfOk result (λ x. ArePlanned shapes.now x.0) }
    ensures scalars { IfOk result (λ x. AreScalars x.1 x.0) }
    ensures refused { IfErr result (λ why. IsUnplanned shapes.now why) }
{
    let mut plan = ObjectPlan::new(alloc);
    let mut scalars = 0;
    for given in shapes {
        let Some(shape) = given.shape() else {
            return Err(Status::BadKind);
        };
        plan.add(shape)?;
        scalars = count_scalar(scalars, &shape);
    }
    Ok((plan, scalars))
}

/// Opens a store of these objects, for so many workers.
pub(crate) fn open(alloc: Global, shapes: &[ShapeIn], workers: u32) -> Result<StoreHandle, Status>
    ensures store { IfOk result IsStore }
    ensures shapes { IfOk result (HasShapes shapes.now workers) }
    ensures unopened { IfErr result (IsUnopened shapes.now workers) }
{
    let (plan, scalars) = plan_of(alloc, shapes)?;
    let objects = ObjectCounts {
        all: plan.len(),
        scalars,
    };
    let opened = plan.open(alloc, workers)?;
    match OwnedStore::new(alloc, opened) {
        Ok(store) => Ok(StoreHandle { store, objects }),
        Err(NoMemory) => Err(Status::NoMemory),
    }
}

// Takes in the workers that came back, where none rests in the store.
fn refill(held: &mut StoreHandle) -> Result<(), NoMemory>
    requires { IsStore held.old }
    ensures store { IsStore held.new }
    ensures same { IsSameStore 0 held.old held.new }
    ensures gathered { IsGathered held.old held.new }
{
    if held.store.idle.is_empty() {
        held.store.gather()
    } else {
        Ok(())
    }
}

/// Gives a worker out that rests in the store, or has come back to it.
pub(crate) fn hire(alloc: Global, held: &mut StoreHandle) -> Result<WorkerHandle, Status>
    requires { IsStore held.old }
    ensures store { IsStore held.new }
    ensures worker { IfOk result IsWorker }
    ensures hired { IfOk result (HasHired held.old held.new) }
    ensures kept { IsSameStore 1 held.old held.new }
    ensures unhired { IfErr result (λ why. IsUnhiredOf held.old why held.new) }
{
    let Ok(()) = refill(held) else {
        return Err(Status::NoMemory);
    };
    match held.store.hire(alloc) {
        Ok(worker) => Ok(WorkerHandle {
            worker,
            objects: held.objects,
        }),
        Err(HireError::NoneLeft) => Err(Status::NoWorker),
        Err(HireError::NoMemory) => Err(Status::NoMemory),
    }
}

/// Closes a store, and answers what is left of it.
pub(crate) fn close(alloc: Global, held: StoreHandle) -> (HandleContent, Result<(), Status>)
    requires { IsStore held }
    ensures held { IsHeld result.0 }
    ensures closed { HasClosedStore held result.1 result.0 }
{
    let (store, objects) = held.into_parts();
    let mut store = store;
    if store.gather().is_err() {
        return (
            HandleContent::Store(StoreHandle { store, objects }),
            Err(Status::NoMemory),
        );
    }
    match store.close(alloc) {
        Ok(state) => match all_rows(alloc, &state) {
            Ok(rows) => (HandleContent::Closed(rows), Ok(())),
            Err(NoMemory) => (HandleContent::Nothing, Err(Status::NoMemory)),
        },
        Err(OwnedCloseError::Missing(store)) => (
            HandleContent::Store(StoreHandle { store, objects }),
            Err(Status::WorkersOut),
        ),
        Err(OwnedCloseError::Busy(store)) => (
            HandleContent::Store(StoreHandle { store, objects }),
            Err(Status::Busy),
        ),
        Err(OwnedCloseError::NoMemory) => (HandleContent::Nothing, Err(Status::NoMemory)),
    }
}
