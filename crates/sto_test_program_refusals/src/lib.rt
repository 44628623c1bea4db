//! What the clauses of the programs refuse: wrong texts, each with a clause that says that it is none.
//!
//! | Module | Refuses |
//! |---|---|
//! | `sto` | what `sto` does not print or tell |
//! | `feed` | what `feed` does not print |
//! | `check` | what `check` does not find |
//! | `steps` | runs that are none, and deeds that are not those of an event |
#![tactic(auto)]

mod check;
mod feed;
mod steps;
mod sto;

pub use check::not_found;
pub use feed::not_fed;
pub use steps::{no_deed, no_run};
pub use sto::{
    not_asked, not_ended, not_generated, not_helped, not_run, not_scheduled, not_stepped,
};
