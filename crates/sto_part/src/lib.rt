//! Lists, contents, changes of words and predicates on them: what all other crates stand on.
#![tactic(auto)]

mod change;
mod contents;
mod index;
mod list;
mod naming;
mod pred;
mod words;

pub use change::{Change, Update, apply_word, then, wrapping_difference, wrapping_sum};
pub use contents::{Contents, PartWords};
pub use index::PartIndex;
pub use list::List;
pub use naming::Naming;
pub use pred::{Pred, Test, compare, holds, negate};
pub use words::{Word, Words};

/// The numbers of parts.
pub type Parts = List<u32>;

/// Bytes as they were read or are to be written.
pub type Bytes = List<u8>;

/// The numbers of calls.
pub type Calls = List<u64>;

/// Memory could not be had.
#[derive(Clone, Copy, PartialEq, Eq, Debug)]
pub struct NoMemory;

impl<T: Drop> From<(T, NoMemory)> for NoMemory {
    fn from(refused: (T, NoMemory)) -> NoMemory {
        refused.1
    }
}
