//! What the passes of a queue know. No value of these is made.
use crate::job::Job;
use std::collections::LinkedList;

/// Which steps a pass may make.
pub enum Side {
    /// It is to be split into a feeder's and a worker's pass.
    Unopened,
    /// It may send.
    Feeder,
    /// It may take.
    Worker,
    /// It was joined from both.
    Joined,
    /// It is what a join left.
    Spent,
}

/// What a pass knows: the jobs of its queue, and how many of them it has sent or taken.
pub struct Known {
    pub side: Side,
    pub jobs: LinkedList<Job>,
    pub sent: u64,
    pub taken: u64,
}
