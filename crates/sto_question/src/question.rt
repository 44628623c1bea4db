//! What a question says.

use sto_part::Test;

/// Whether an amount is added or taken away.
#[derive(Clone, Copy, PartialEq, Eq, Debug)]
pub enum Sign {
    Plus,
    Minus,
}

/// A number, or what the object with a number holds at a key. A box and a counter hold their value at key 0.
#[derive(Clone, Copy, PartialEq, Eq, Debug)]
pub enum Amount {
    Number(i64),
    Value { object: u32, key: i64 },
}

/// An amount of a sum, with its sign.
#[derive(Clone, Copy, PartialEq, Eq, Debug)]
pub struct Term {
    pub sign: Sign,
    pub amount: Amount,
}

/// That the sums of two sides compare by a test.
#[derive(Drop)]
pub struct Comparison {
    pub left: Vec<Term>,
    pub test: Test,
    pub right: Vec<Term>,
}

/// Comparisons that must all be true.
#[derive(Drop)]
pub struct Question {
    pub comparisons: Vec<Comparison>,
}
