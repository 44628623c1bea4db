//! When a report is lawful: orders of a file, replays over plain rows, and the two forms of a report.
//!
//! The definitions stand in `specs/`, apart from all code that makes reports. They run whole transactions one after the
//! other over sorted rows. They know no versions, locks, items, caches or tickets.
//!
//! | Module | Says |
//! |---|---|
//! | `Orders` | what an order of a file is |
//! | `Replay` | what each transaction of an order answers and leaves, run one after the other |
//! | `Report` | the text of a report |
//! | `Named`, `NamedAborts` | the order that the journal lines of a text name, and the attempts that its abort lines name |
//! | `Json`, `NamedJson` | the same for the JSON form of a report |
//! | `LawfulAborts` | when aborted attempts are lawful |
//! | `Lawful` | when a text is lawful for a file |
#![tactic(auto)]

mod ending;
mod form;

pub use ending::Ending;
pub use form::ReportForm;
