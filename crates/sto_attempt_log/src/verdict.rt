//! How an attempt goes on, and how it ends.
use sto_model::Replies;

/// How an attempt ended.
#[derive(Clone, Copy, PartialEq, Eq, Debug)]
pub enum Verdict {
    /// It committed with this ticket, and its updates are installed.
    Wrote { ticket: u64 },
    /// It committed without an update, as of this value of the clock.
    Read { at: u64 },
    /// Its body cancelled, as of this value of the clock.
    Cancelled { at: u64 },
    /// A part was locked by another pass.
    Locked { at: u64, part: u32 },
    /// A part was written by another pass, with this ticket, after `at`.
    Changed { at: u64, part: u32, ticket: u64 },
}

/// Where a step has led.
#[derive(Clone, Copy, PartialEq, Eq, Debug)]
pub enum Turn {
    /// There is a further event before the body ends.
    More,
    /// The body commits with an update.
    Ready,
    /// The attempt has ended.
    Ended(Verdict),
}

/// What is left of an attempt.
#[derive(Drop)]
pub struct Heard<B> {
    /// The body, as it stood at the end.
    pub body: B,
    /// What it was answered, in order.
    pub replies: Replies,
}
