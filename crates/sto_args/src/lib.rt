//! The words after the program's name: their grammar, and the command that they are; what the words of the checker of reports and of the feed ask.
#![tactic(auto)]

mod asked;
mod command;
mod given;
mod grammar;
mod help;
mod number;
mod word;

pub use asked::{Checking, Feeding, find_checking, find_feeding};
pub use command::{Asked, By, Command, find_command};
pub use given::GivenText;
pub use help::HelpPage;
