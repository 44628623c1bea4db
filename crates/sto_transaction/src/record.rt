//! Records of attempts.
use sto_attempt::Verdict;
use sto_model::Replies;

/// An attempt that has ended.
#[derive(PartialEq, Eq, Drop)]
pub struct Record {
    /// The script thread of its transaction.
    pub thread: u32,
    /// The transaction's position there, from 1.
    pub position: u32,
    /// What its calls were answered.
    pub replies: Replies,
    /// How it ended.
    pub verdict: Verdict,
}
