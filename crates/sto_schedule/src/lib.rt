//! A schedule that stands in words, beside a file.
#![tactic(auto)]

mod display;
mod entry;
mod read;

pub use read::{ScheduleError, with_schedule};
