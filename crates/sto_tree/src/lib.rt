//! An ordered tree as a shared type: a directory, and leaves of 8 places, each with a range of keys.
#![tactic(auto)]

mod between;
mod changes;
mod contents;
mod count;
mod get;
mod leaf;
mod len;
mod listing;
mod needs;
mod next;
mod put;
mod range;
mod remove;
mod repack;
mod said;
mod search;
mod seen;
mod split;
mod tree;
mod walk;

pub use tree::TTree;
