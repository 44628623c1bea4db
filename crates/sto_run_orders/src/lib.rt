//! What all orders of a file's transactions lead to, as reports of runs.
//!
//! [`explore_orders`] finds the outcomes of all orders, and makes for each a run that leads there: by a schedule that lets each leg of an
//! order be made beside no other thread. [`reports_text`] is what is printed of them. [`those_asked`] are those of which a question is true, and
//! [`asked_text`] is what is printed then.
#![tactic(auto)]

mod asked;
mod events;
mod explored;
mod json;
mod order;
mod printed;
mod report;
mod runs;
mod text;
mod words;

pub use asked::{Asking, those_asked};
pub use explored::explore_orders;
pub use printed::{asked_text, reports_text};
pub use report::OrderReport;
pub use sto_orders::{OrdersError, SameBy};
