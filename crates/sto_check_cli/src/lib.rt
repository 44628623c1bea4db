//! The program that checks reports: its words, its source and its sinks, and all that a call of it does.
#![tactic(auto)]

mod divide;
mod judge;
mod line;
mod top;
mod work;

pub use sto_console::{
    Failed, MemSink, MemSource, QuietSink, QuietSource, Sink, Source, StdSink, StdSource,
    WordsError, refuse_words, words_of,
};
pub use top::check;
