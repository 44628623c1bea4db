//! What containers have in common: places that are used round and round, and answers that write nothing.
#![tactic(auto)]

mod places;
mod saying;

pub use places::{is_live, next, offset};
pub use saying::{absent, says};
