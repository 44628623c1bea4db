//! Where a worker that comes back waits until its store takes it.
ghost use Rattle.std.specs.Prelude.{◌≡◌, IfSome, IfErr};
ghost use Rattle.std.specs.Arc.{arc_value};
ghost use Rattle.sto_shared_store.specs.Back.{HasComeBack};

use crate::store::Store;
use crate::worker::CountedRest;
use counted_slot::{Counted, FREE, Fits, TAKEN};
use std::alloc::Global;
use std::sync::Arc;
use sto_type::TxType;

/// A worker as it was given out, and its store.
#[derive(Drop)]
pub struct Hired<T: TxType> {
    pub store: Arc<Store<T>, Global>,
    pub worker: CountedRest<T>,
}

/// A worker that was given back.
#[derive(Drop)]
pub struct GivenBack<T: TxType> {
    pub worker: CountedRest<T>,
}

impl<T: TxType> Fits for GivenBack<T> {
    type Tag = Hired<T>;

    ghost fits = { λ hired given. HasComeBack (T.meaning (arc_value hired.store).ty) (T.sizes (arc_value hired.store).ty)
        (arc_value hired.store).shared hired.worker given.worker };
}

/// Where a worker of a store that comes back waits until the store takes it. Contracts see the worker as it was given out.
pub type ReturnSlot<T> = Counted<Option<GivenBack<T>>>;

// The word of a slot in which a worker waits; that of an empty one is `FREE`.
const WAITS: u64 = 1 << 32;

/// Has a worker wait in its slot, or hands it back where another call is at the slot.
pub(crate) fn give<T: TxType + Drop>(
    slot: &ReturnSlot<T>,
    worker: CountedRest<T>,
) -> Result<(), CountedRest<T>>
    requires { HasComeBack (T.meaning (arc_value slot.now.store).ty) (T.sizes (arc_value slot.now.store).ty)
        (arc_value slot.now.store).shared slot.now.worker worker }
    ensures { IfErr result (λ w. w ≡ worker) }
{
    let (found, claim) = slot.turn(FREE, TAKEN);
    if found != FREE {
        claim.done();
        return Err(worker);
    }
    claim.put(Some(GivenBack { worker }), WAITS);
    Ok(())
}

/// Takes the worker that waits in a slot, if there is one.
pub(crate) fn take<T: TxType + Drop>(slot: &ReturnSlot<T>) -> Option<CountedRest<T>>
    ensures { IfSome result (λ w. HasComeBack (T.meaning (arc_value slot.now.store).ty) (T.sizes (arc_value slot.now.store).ty)
        (arc_value slot.now.store).shared slot.now.worker w) }
{
    if slot.load() != WAITS {
        return None;
    }
    let (found, claim) = slot.turn(WAITS, WAITS + TAKEN);
    if found != WAITS {
        claim.done();
        return None;
    }
    match claim.put(None, FREE) {
        Some(given) => Some(given.worker),
        None => None,
    }
}
