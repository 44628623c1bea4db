//! What the definitions refuse: wrong answers, each with a clause that says that it is none.
//!
//! | Module | Refuses |
//! |---|---|
//! | `reports` | texts that are no reports of two transactions |
//! | `library` | what a worker or a store does not answer |
#![tactic(auto)]

mod library;
mod reports;

pub use library::{not_closed, not_looked, not_run};
pub use reports::{no_lawful_abort, no_lawful_report, not_found_lawful};
