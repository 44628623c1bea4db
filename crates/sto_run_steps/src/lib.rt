//! Script threads in one thread, stepped event by event by a schedule.
//!
//! Each script thread has a pass of its own over the same words, and each step is one event of one pass. So every interleaving of a few
//! transactions can be replayed as it is written down.
#![tactic(auto)]

mod attempts;
mod file;
mod log;
mod seat;
mod spare;
mod stage;
mod work;

pub use attempts::{Attempts, Stepped};
pub use file::{step_threads, trace_threads};
pub use spare::Spare;
pub use work::SteppedWork;
