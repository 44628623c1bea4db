//! Code that is run as a transaction: what it may ask of objects, and what it means.
#![tactic(auto)]

mod atomic;
mod attempt;
mod body;
mod cause;
mod code;
mod display;
mod handles;
mod memory;
mod outcome;
mod short_reply;
mod snapshot;
mod tx;

pub use atomic::atomically;
pub use body::ActionBody;
pub use cause::{AbortCause, cause_of};
pub use code::Action;
pub use handles::{ArrayId, BoxId, CounterId, HashId, TreeId, VectorId};
pub use memory::ActionLists;
pub use outcome::{Attempted, Done, TransactionError};
pub use short_reply::ShortReply;
pub use snapshot::{Snapshot, SnapshotValues};
pub use tx::{Stop, Tx};
