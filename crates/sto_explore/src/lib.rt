//! Every schedule of some threads with at most so many switches, and what each leads to.
//!
//! [`explore`] has one run made by each schedule that lets threads run to their ends, save for so many switches away from a thread that
//! could go on. It knows the threads by the trait [`Runs`] alone.
#![tactic(auto)]

mod aborted;
mod branch;
mod display;
mod entries;
mod exploration;
mod json;
mod leg;
mod order;
mod outcome;
mod printed;
mod runs;
mod tally;
mod text;
mod way;
mod words;

pub use aborted::Aborted;
pub use exploration::{ExploreError, explore};
pub use leg::Leg;
pub use outcome::{Outcome, Outcomes, Reported};
pub use printed::outcomes_text;
pub use runs::{Gathers, LastRun, RunError, Runs};
pub use tally::Tally;
