//! Whether a transaction is handed back.

/// Whether a transaction has ended, or is handed back after its last try.
#[derive(Clone, Copy, PartialEq, Eq, Debug)]
pub enum Kept {
    Ended,
    HandedBack,
}
