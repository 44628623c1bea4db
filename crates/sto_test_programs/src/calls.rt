//! Calls of the whole programs on words and a text, over a source and sinks in memory of which each may fail.
mod checking;
mod program;
mod running;
mod streams;
mod words;

pub use checking::call_check;
pub use program::{Call, Program};
pub use running::{call, call_feed};
pub use streams::{Called, Failing, NONE};
pub use words::words_in;
