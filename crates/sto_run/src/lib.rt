//! Runs of files on threads and by steps, and the journals that they leave.
//!
//! With them what a run asks of the type of a file's objects as a whole: what they open with, the homes of their parts, and the
//! rows of their contents.
#![tactic(auto)]

mod abort;
mod file;
mod form;
mod journal;
mod line;
mod merging;
mod opened;
mod order;
mod rank;
mod split;
mod step;
mod stored;
mod traced;
mod whole;

pub use file::{run_file, run_workload};
pub use form::report;
pub use journal::journal_of;
pub use merging::merge;
pub use opened::OpenedRun;
pub use step::step_file;
pub use sto_journal::{AbortLine, Aborts, Cause, Journal, Line, Lines};
pub use sto_run_threads::{BorrowedFile, Gate, NoGate, Workload};
pub use stored::objects_of;
pub use traced::{TracedRun, trace_file};
pub use whole::{homes_of, opening_of, rows_of};
