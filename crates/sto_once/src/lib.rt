//! Code that is run once an attempt, over what answers its calls as they come.
#![tactic(auto)]

mod atomic;
mod attempt;
mod code;
mod over;

pub use atomic::atomically;
pub use code::{Answers, Code, Halt};
