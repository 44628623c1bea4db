//! The lines of a script, their words, and the forms of lines by their words alone.
#![tactic(auto)]

mod bad_number;
mod declared;
mod entries;
mod entry;
mod form;
mod line;
mod name;
mod operand;
mod operation;
mod word;

pub use declared::Declared;
pub use entries::Entries;
pub use entry::{ScheduleEntry, ThreadWord};
pub use form::{Form, form_of};
pub use line::{next_line, next_word};
pub use name::Name;
pub use operand::{Operand, Operands};
pub use operation::OperationWord;
