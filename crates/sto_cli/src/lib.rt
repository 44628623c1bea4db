//! The program: its words, its source and its sinks, and all that a call of it does.
//!
//! What it shares with the other programs is in `sto_console`.
#![tactic(auto)]

mod answer;
mod drawn;
mod explored;
mod help;
mod scheduled;
mod script;
mod told;
mod top;
mod traced;
mod work;

pub use sto_console::{
    Failed, MemSink, MemSource, QuietSink, QuietSource, Sink, Source, StdSink, StdSource,
    WordsError, refuse_words, words_of,
};
pub use sto_run::{Gate, NoGate};
pub use sto_run_schedules::{Meter, NoMeter};
pub use told::Answer;
pub use top::sto;
