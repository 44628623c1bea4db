//! Traces of runs: what each event did and found.
#![tactic(auto)]

mod noting;
mod replies;

pub use noting::Noting;
pub use replies::replies_past;
use sto_attempt_log::Verdict;
use sto_model::Replies;
use sto_part::List;
use sto_version::Version;

/// What an event did to one word, and what it found there.
///
/// Parts are numbers of the store, and a word is its place in the part. A version is that before the event.
#[derive(Clone, Copy, PartialEq, Eq, Debug)]
pub enum Deed {
    /// It began an attempt, and found this clock.
    Start { clock: u64 },
    /// It loaded the clock again, to read on as of this number.
    Renew { clock: u64 },
    /// It began a read.
    Open { part: u32, version: Version },
    /// It loaded a word.
    Word { part: u32, word: u32, value: i64 },
    /// It ended a read or a test.
    Close { part: u32, version: Version },
    /// It looked whether a part that was read has still its version.
    Recheck { part: u32, version: Version },
    /// It set the lock bit, which had been clear where the version is free.
    Lock { part: u32, version: Version },
    /// It began to load a part in a commit that does not hold it.
    Test { part: u32, version: Version },
    /// It raised the clock to this ticket.
    Draw { ticket: u64 },
    /// It looked whether a part is still as it was observed.
    Check { part: u32, version: Version },
    /// It committed, or dropped the ticket.
    Decide { commit: bool },
    /// It stored a word.
    Put { part: u32, word: u32, value: i64 },
    /// It stored the ticket as the version of a part, which is free from then on.
    Release { part: u32 },
    /// It cleared the lock bit of a part.
    Unlock { part: u32 },
}

/// One event of a run: who made it, what it did, and where it led the attempt.
#[derive(Drop)]
pub struct Step {
    /// The script thread.
    pub thread: u32,
    /// The position of its transaction, from 1.
    pub position: u32,
    pub deed: Deed,
    /// What further calls of the attempt were answered, in order.
    pub replies: Replies,
    /// How the attempt ended with it, if it did.
    pub end: Option<Verdict>,
}

/// The events of a run in their order.
pub type Steps = List<Step>;
