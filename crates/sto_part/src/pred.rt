//! Predicates: one word, plus a constant, compared with a constant.
ghost use Rattle.std.specs.Prelude.{◌≡◌, ℤ, not};
ghost use Rattle.sto_part.specs.Preds.{compares, negated, holds_of};

use crate::change::wrapping_sum;

/// How two numbers are compared.
#[derive(Clone, Copy, PartialEq, Eq, Debug)]
pub enum Test {
    Eq,
    Ne,
    Lt,
    Le,
    Gt,
    Ge,
}

/// That a word plus `shift`, modulo 2^64 and read as signed, compares with `bound` by `test`.
///
/// After the predicates on counters in Herman and others, EuroSys 2016, section 3.
#[derive(Clone, Copy, PartialEq, Eq, Debug)]
pub struct Pred {
    /// The number of the part.
    pub part: u32,
    /// The place of the word in the part.
    pub word: u32,
    /// What is added to the word.
    pub shift: i64,
    /// How the sum compares.
    pub test: Test,
    /// With what it compares.
    pub bound: i64,
}

/// Whether a predicate is true where its word has this value.
pub fn holds(pred: &Pred, value: i64) -> bool
    ensures { result ≡ holds_of pred.now value }
{
    compare(pred.test, wrapping_sum(value, pred.shift), pred.bound)
}

/// Whether a number compares with another by the test.
pub fn compare(test: Test, one: i64, other: i64) -> bool
    ensures { result ≡ compares test one other }
{
    match test {
        Test::Eq => one == other,
        Test::Ne => one != other,
        Test::Lt => one < other,
        Test::Le => one <= other,
        Test::Gt => one > other,
        Test::Ge => one >= other,
    }
}

/// The test with the opposite answer on all numbers.
pub fn negate(test: Test) -> Test
    ensures test { result ≡ negated test }
    ensures opposite { (x y : ℤ) → compares result x y ≡ not (compares test x y) }
{
    match test {
        Test::Eq => Test::Ne,
        Test::Ne => Test::Eq,
        Test::Lt => Test::Ge,
        Test::Le => Test::Gt,
        Test::Gt => Test::Le,
        Test::Ge => Test::Lt,
    }
}
