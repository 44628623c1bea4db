//! Blocks of places: the words of a key part, two for each place, and the calls that search them.
//!
//! Place i has its present word at 2 * i and its key at 2 * i + 1. The present word is 1 where the place is present.
#![tactic(auto)]

mod between;
mod block;

pub use between::{Places, places_between};
pub use block::{count_between, count_present, find, free, place_at};
