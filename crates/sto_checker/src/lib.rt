//! Checks reports: whether a report is lawful for a file, and else at which line it goes wrong.
//!
//! A report is judged by plain maps alone: its journal lines along a replay of the order that they name, its abort lines along
//! a second one, and its last lines by the state that the first one left.
#![tactic(auto)]

mod abort;
mod aborts;
mod check;
mod found;
mod heard;
mod journal;
mod last;
mod objects;
mod open_replies;
mod past;
mod progress;
mod reader;
mod replayed;
mod run;
mod run_one;
mod seen;
mod told;
mod transaction;
mod walk;
mod window;
mod word;
mod written;

pub use check::check_report;
pub use found::Found;
pub use last::{LastAbort, followed_by};
pub use open_replies::replies_of;
pub use past::{Past, add_objects, is_line};
pub use progress::Progress;
pub use reader::{GivenLine, Reader, first_line};
pub use run::run_file;
pub use told::{ToldAbort, ToldCause, heard_in};
pub use transaction::{TransactionPlace, journal_transaction, transaction_in};
pub use walk::{has_asked, is_unsettled, objects_written};
pub use word::{first_piece, number};
