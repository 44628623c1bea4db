//! What the outcomes of all orders are not, refusals without a cause, and tests of the outcomes of small files.
#![tactic(auto)]

#[cfg(test)]
mod puzzles;
mod refused;
mod uncaused;
mod untold;

pub use refused::not_all_outcomes;
pub use uncaused::no_cause;
pub use untold::not_all_reports;
