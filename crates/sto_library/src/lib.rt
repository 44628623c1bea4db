//! Shared transactional objects, as programs use them: a plan of objects, a store, its workers, and code that they run as transactions.
#![tactic(auto)]

mod contents;
mod display;
mod error;
mod schema;
mod store;
mod task;
mod times;
mod together;
mod waits;
mod worker;

pub use contents::{total_of, value_of};
pub use either::Either;
pub use error::StoreError;
pub use schema::Schema;
pub use sto_action::{
    AbortCause, Action, ArrayId, BoxId, CounterId, Done, HashId, ShortReply, Snapshot,
    SnapshotValues, Stop, TransactionError, TreeId, Tx, VectorId,
};
pub use sto_model::{Call, Operation, Rows, State};
pub use sto_part::{NoMemory, Test, wrapping_difference, wrapping_sum};
pub use sto_shared_store::{CountedRest, OpenError, PlanError};
pub use sto_store::Objects;
pub use sto_transaction::AttemptWatch;
pub use sto_type::TxType;
pub use store::{CloseError, LookError, SharedStore};
pub use task::{Task, TaskError};
pub use times::Times;
pub use waits::Waits;
pub use worker::StoreWorker;
