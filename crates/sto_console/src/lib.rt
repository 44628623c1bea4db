//! What the programs have in common: the words after their names, what they read and write whole, why a call is refused, and the
//! line that is written beside and the exit status that tell of it.
#![tactic(auto)]

mod beside;
mod display;
mod give;
mod memory;
mod quiet;
mod refusal;
mod standard;
mod stream;
mod streams;
mod whole;
mod words;
mod workers;

pub use beside::{
    fault_line, question_line, say, say_refusal, schedule_line, schedules_line, states_line,
    write_line,
};
pub use memory::{MemSink, MemSource};
pub use quiet::{QuietSink, QuietSource};
pub use refusal::{InputFault, Refusal, ScheduleCounts, StateCount, status};
pub use standard::{StdSink, StdSource};
pub use stream::{Failed, Sink, Source};
pub use streams::{bytes_left, file_in, script_left, write_text};
pub use whole::{ReadAllError, read_all, write_all};
pub use words::{WordsError, refuse_words, words_of};
pub use workers::{leave, workers_for};
