//! What runs lead to.

use crate::aborted::Aborted;
use crate::leg::Leg;

/// What a run leads to: the text of its report, and how many of its attempts were aborted.
#[derive(Drop)]
pub struct Reported {
    pub text: String,
    pub aborted: Aborted,
}

/// A report, how many schedules lead to it, and the legs of one that does.
#[derive(Drop)]
pub struct Outcome {
    pub text: String,
    pub schedules: u64,
    pub legs: Vec<Leg>,
}

/// The outcomes of runs, those with the simplest schedules first, how many runs there were, and how many attempts of all were aborted.
#[derive(Drop)]
pub struct Outcomes {
    pub each: Vec<Outcome>,
    pub schedules: u64,
    pub aborted: Aborted,
}
