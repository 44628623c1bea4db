//! Why a store was not opened.

/// Why a store was not opened.
#[derive(Clone, Copy, PartialEq, Eq, Debug)]
pub enum OpenError {
    /// A store has from 1 to 65,536 workers.
    Workers,
    /// Memory was wanting.
    NoMemory,
}
