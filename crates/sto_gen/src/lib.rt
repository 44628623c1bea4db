//! The generated scripts: a file of transfers for each number.
#![tactic(auto)]

mod draws;
mod file;
mod transaction;

pub use draws::{Transfer, transfers};
pub use file::{generate, objects};
pub use transaction::{ACCT, DONE, LOG, OWNER};
