//! Several passes in one thread: the same calls, views and rule as on running threads, over plain lists.
//!
//! A `Plain` owns the words: a clock, a status word for each pass, a version and contents for each part, and a
//! `Notebook` with what the passes know. `Plain::at` turns it into one of its passes, which is a `Cells`, and
//! `At::back` gives it back, so passes take their events in any order that the caller chooses.
#![tactic(auto)]

mod at;
mod plain;

pub use at::At;
pub use plain::Plain;
