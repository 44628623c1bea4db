//! The feed: its words, its source and its sinks, and all that a call of it does. What its words ask is a run in the form of
//! text, and a call ends as `sto` does on the command for that; another is only how the transactions come to the workers.
#![tactic(auto)]

mod answer;
mod top;
mod work;

pub use sto_console::{
    Failed, MemSink, MemSource, QuietSink, QuietSource, Sink, Source, StdSink, StdSource,
    WordsError, refuse_words, words_of,
};
pub use sto_run_feed::{Gate, NoGate};
pub use top::feed;
