//! Of which states a question is true.
ghost use Rattle.std.specs.Prelude.{◌≡◌, map, IfOk};
ghost use Rattle.sto_part.specs.Preds.{compares};
ghost use Rattle.sto_model.specs.Rows.{value_at};
ghost use Rattle.sto_report_spec.specs.Report.{rows_of};
ghost use Rattle.sto_question.specs.Questions.{amount_in, signed_sum, sum_from, sum_in, sums_compare, is_true_comparison, is_true_of};
ghost use Rattle.sto_question.specs.Views.{comparison as comparison_of, question as question_of};

use crate::question::{Amount, Comparison, Question, Sign, Term};
use sto_model::State;
use sto_part::{NoMemory, Test};

// The value at a key of rows.
fn value_at(rows: &[(i64, i64)], key: i64) -> Option<i64>
    ensures { result ≡ value_at rows.now key }
{
    rows.iter().find(|row| row.0 == key).map(|row| row.1)
}

// What an object holds at a key.
fn value_in(state: &State, object: u32, key: i64) -> Option<i64>
    ensures { result ≡ value_at (rows_of state.now.items object) key }
{
    if state.len() <= object {
        return None;
    }
    value_at(state.get(object).as_slice(), key)
}

// What an amount is in a state.
fn amount_in(state: &State, amount: Amount) -> Option<i64>
    ensures { result ≡ amount_in state.now.items amount }
{
    match amount {
        Amount::Number(value) => Some(value),
        Amount::Value { object, key } => value_in(state, object, key),
    }
}

// A sum with one more value. `NoMemory` comes where it is none of 128 bits, for which a sum must have more than 2^64 terms.
fn signed_sum(sign: Sign, sum: i128, value: i64) -> Result<i128, NoMemory>
    ensures { IfOk result (λ more. more ≡ signed_sum sign sum value) }
{
    let more = match sign {
        Sign::Plus => sum.checked_add(i128::from(value)),
        Sign::Minus => sum.checked_sub(i128::from(value)),
    };
    match more {
        Some(more) => Ok(more),
        None => Err(NoMemory),
    }
}

// The sum of terms, where each has an amount.
fn sum_in(state: &State, terms: &[Term]) -> Result<Option<i128>, NoMemory>
    ensures { IfOk result (λ sum. sum ≡ sum_in state.now.items terms.now) }
{
    let mut sum: i128 = 0;
    for term in terms {
        let Some(value) = amount_in(state, term.amount) else {
            return Ok(None);
        };
        sum = signed_sum(term.sign, sum, value)?;
    }
    Ok(Some(sum))
}

// Whether a sum compares with another by a test.
fn compare(test: Test, one: i128, other: i128) -> bool
    ensures { result ≡ compares test one other }
{
    match test {
        Test::Eq => one == other,
        Test::Ne => one != other,
        Test::Lt => one < other,
        Test::Le => one <= other,
        Test::Gt => one > other,
        Test::Ge => one >= other,
    }
}

// Whether two sums are there and compare.
fn sums_compare(test: Test, left: Option<i128>, right: Option<i128>) -> bool
    ensures { result ≡ sums_compare test left right }
{
    match (left, right) {
        (Some(left), Some(right)) => compare(test, left, right),
        _ => false,
    }
}

// Whether a comparison is true of a state.
fn is_true_comparison(state: &State, comparison: &Comparison) -> Result<bool, NoMemory>
    ensures { IfOk result (λ is_true. is_true ≡ is_true_comparison state.now.items (comparison_of comparison.now)) }
{
    let left = sum_in(state, comparison.left.as_slice())?;
    let right = sum_in(state, comparison.right.as_slice())?;
    Ok(sums_compare(comparison.test, left, right))
}

// Whether all comparisons are.
fn are_true(state: &State, comparisons: &[Comparison]) -> Result<bool, NoMemory>
    ensures { IfOk result (λ are_true. are_true ≡ is_true_of (map comparison_of comparisons.now) state.now.items) }
{
    for comparison in comparisons {
        if !is_true_comparison(state, comparison)? {
            return Ok(false);
        }
    }
    Ok(true)
}

impl Question {
    /// Whether the question is true of a state: whether all of its comparisons are. One with an object that has no such key is false.
    ///
    /// `NoMemory` comes where a sum is no number of 128 bits, for which it must have more than 2^64 terms.
    pub fn is_true_of(&self, state: &State) -> Result<bool, NoMemory>
        ensures { IfOk result (λ is_true. is_true ≡ is_true_of (question_of self.now) state.now.items) }
    {
        are_true(state, self.comparisons.as_slice())
    }
}
