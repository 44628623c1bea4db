//! A store of shared objects, from the plan of what it is to hold to the rows that it holds at its end.
#![tactic(auto)]

mod closing;
mod display;
mod given;
mod open_error;
mod opening;
mod owned_store;
mod owned_worker;
mod plan;
mod plan_error;
mod sizes;
mod store;
mod store_close_error;
mod worker;

pub use given::{GivenBack, Hired, ReturnSlot};
pub use open_error::OpenError;
pub use opening::OpenedStore;
pub use owned_store::{HireError, OwnedCloseError, OwnedStore};
pub use owned_worker::{GiveBackError, OwnedWorker};
pub use plan::ObjectPlan;
pub use plan_error::PlanError;
pub use store::Store;
pub use store_close_error::StoreCloseError;
pub use worker::{CountedPass, CountedRest, CountedRests};
