//! What is told of a command.

use sto_lang::Text;

/// What the program answers beside its text: that all is done, or that `explore` found an outcome that must never be.
#[derive(Clone, Copy, PartialEq, Eq, Debug)]
pub enum Answer {
    Done,
    Found,
}

/// The text of a command, and how it is answered.
#[derive(Drop)]
pub(crate) struct Told {
    pub(crate) answer: Answer,
    pub(crate) text: Text,
}
