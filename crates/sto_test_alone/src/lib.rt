//! One transaction alone: a body is run over contents that nobody else touches.
//!
//! A transaction here does what an attempt does on shared words, without the words: it plans each call on the parts that it has learnt,
//! moves what the call observed below the pending updates, and composes the updates, which are applied at the commit and not before.
//! So it is the plain program that attempts are compared with.
#![tactic(auto)]

mod alone;
mod applying;
mod asking;
mod run;

pub use alone::run_transaction_alone;
pub use run::{Ran, run_alone};
