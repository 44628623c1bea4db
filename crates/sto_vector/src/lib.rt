//! Bounded vectors: values that stand one behind the other, to a capacity.
//!
//! The size is a part of its own, and so is each place. A get of a place observes that the size is above it and the place, and
//! not the size itself; so a push behind it does not disturb it.
#![tactic(auto)]

mod answers;
mod vector;

pub use vector::TVector;
