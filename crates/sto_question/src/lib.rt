//! Questions of outcomes: what they say, which words are one, and of which states they are true.
#![tactic(auto)]

mod amount;
mod draft;
mod fault;
mod number;
mod question;
mod read;
mod truth;

pub use fault::{QuestionError, QuestionFault};
pub use question::{Amount, Comparison, Question, Sign, Term};
pub use read::read_question;
