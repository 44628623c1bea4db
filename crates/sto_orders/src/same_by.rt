//! What outcomes are told apart by.

/// What outcomes are told apart by: two orders have the same outcome where these are the same.
#[derive(Clone, Copy, PartialEq, Eq, Debug)]
pub enum SameBy {
    /// The final state.
    State,
    /// That, and how each transaction ended with what it was answered.
    Answers,
    /// That, and the number of writers on the line of each transaction.
    Order,
}
