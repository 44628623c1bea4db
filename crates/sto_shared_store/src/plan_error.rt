//! Why an object cannot be planned.

/// Why an object cannot be planned. The plan is as it was.
#[derive(Clone, Copy, PartialEq, Eq, Debug)]
pub enum PlanError {
    /// An object of a later kind was planned before it: the order is boxes, counters, arrays, hash tables, trees, vectors.
    OutOfOrder,
    /// It has no room: a hash table without buckets or a tree without leaves; or its own parts or words are too many.
    NoRoom,
    /// The objects would have 2^32 parts or more, or be so many.
    TooMany,
    /// Memory was wanting.
    NoMemory,
}
