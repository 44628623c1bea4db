//! Where the machine of a commit stands between two events.
use crate::verdict::Verdict;

/// Which event is next.
#[derive(Clone, Copy)]
pub enum CommitPhase {
    /// The written part at this place is locked.
    Locking {
        place: u32,
    },
    /// A word of the held part at this place of those to be loaded is read.
    Loading {
        place: u32,
        word: u32,
    },
    /// The test of the part at this place of those to be loaded begins.
    Testing {
        place: u32,
    },
    /// A word of that part is read; or, where all were, its test ends.
    Tested {
        place: u32,
        word: u32,
        ticket: u64,
    },
    /// The ticket is drawn.
    Drawing,
    /// The part at this place of those to be checked is checked.
    Checking {
        place: u32,
        ticket: u64,
    },
    /// The entry is committed.
    Deciding {
        ticket: u64,
    },
    /// The word at this place of those to be put is put.
    Putting {
        place: u32,
        ticket: u64,
    },
    /// The written part at this place is released.
    Releasing {
        place: u32,
        ticket: u64,
    },
    /// The entry is dropped.
    Dropping {
        ticket: u64,
        verdict: Verdict,
    },
    /// The written part at this place is unlocked; those before `end` are locked.
    Leaving {
        place: u32,
        end: u32,
        verdict: Verdict,
    },
    /// There is none.
    Over,
}

/// A ticket that a lock or a test has found.
#[derive(Drop)]
pub struct FoundTicket {
    pub part: u32,
    pub ticket: u64,
}

/// A word that the commit has read.
#[derive(Drop)]
pub struct LoadedWord {
    pub part: u32,
    pub word: u32,
    pub value: i64,
}
