//! Why a store was not closed.
use crate::store::Store;
use crate::worker::CountedRests;
use sto_part::Naming;

/// Why a store was not closed.
#[derive(Drop)]
pub enum StoreCloseError<T: Naming> {
    /// Not all its workers came back. Here it is, with those that did.
    Missing(Store<T>, CountedRests<T>),
    /// Memory was wanting. The store is lost.
    NoMemory,
}
