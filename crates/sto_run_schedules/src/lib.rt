//! Runs of a file by every schedule with at most so many switches, and what they lead to.
//!
//! [`explore_file`] runs a file in one thread again and again, by one schedule after another, and gathers the reports.
#![tactic(auto)]

mod busy;
mod entries;
mod explored;
mod kept;
mod legs;
mod meter;
mod reported;
mod runs;

pub use busy::busy_threads;
pub use entries::entries_to_ends;
pub use explored::explore_file;
pub use legs::{ends, past};
pub use meter::{Meter, NoMeter};
pub use sto_explore::{ExploreError, Outcome, Outcomes};
