//! The places that all of a picture shares.
use sto_part::{List, Parts};

/// So many lanes of threads, the parts that have lanes, where the column of each step begins and where the last one ends, and how
/// wide an event is.
#[derive(Drop)]
pub(crate) struct Frame {
    pub(crate) threads: u32,
    pub(crate) lanes: Parts,
    pub(crate) lefts: List<u32>,
    pub(crate) event: u32,
}
