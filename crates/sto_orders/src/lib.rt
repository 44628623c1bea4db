//! All orders of a file's transactions, and what they lead to.
//!
//! A report without its abort lines tells the replay of one order of whole transactions. So all orders, each replayed on plain rows,
//! give everything that such a report can tell. Orders whose beginnings lead to the same node go on from there together.
#![tactic(auto)]

mod alike;
mod explored;
mod found;
mod key;
mod level;
mod limit;
mod outcome;
mod same_by;
mod way;

pub use alike::leads_to;
pub use explored::all_outcomes;
pub use limit::OrdersError;
pub use outcome::Outcome;
pub use same_by::SameBy;
