//! What the objects of a closed store hold.
ghost use Rattle.std.specs.Prelude.{◌≡◌, ◌<◌, ◌+ℤ◌, Some, length, option_map, IfSome, MatchOption, slice_get};
ghost use Rattle.sto_model.specs.Objects.{in_range};
ghost use Rattle.sto_library.specs.Contents.{value_of, total, total_of, Overflows, HasNoTotal};

use sto_model::{Rows, State};

/// The value of the box or counter of this number, as `BoxId::number` has it. None where no object with a value has the number.
pub fn value_of(rows: &State, number: u32) -> Option<i64>
    ensures { result ≡ value_of rows.now.items number }
{
    if number >= rows.len() {
        return None;
    }
    let rows = rows.get(number);
    if rows.len() == 0 {
        return None;
    }
    Some(value_at(rows, 0))
}

/// What the values of the array, hash table, tree or vector of this number are together. None where no object has the number, or where a
/// word is too short for the sum, added up from the first value on.
pub fn total_of(rows: &State, number: u32) -> Option<i64>
    ensures { MatchOption result (HasNoTotal (slice_get rows.now.items number)) (λ sum. total_of rows.now.items number ≡ Some sum) }
{
    if number >= rows.len() {
        return None;
    }
    total(rows.get(number))
}

// What the values of these rows are together. None where a word is too short for it.
fn total(rows: &Rows) -> Option<i64>
    ensures { MatchOption result (Overflows rows.now.items) (λ sum. sum ≡ total rows.now.items) }
{
    let mut total: i64 = 0;
    for place in 0..rows.len() {
        total = checked_sum(total, value_at(rows, place))?;
    }
    Some(total)
}

// The sum, where a word is wide enough for it.
fn checked_sum(one: i64, other: i64) -> Option<i64>
    ensures sum { IfSome result (λ sum. sum ≡ one +ℤ other) }
    ensures fits { result ≡ in_range (one +ℤ other) }
{
    one.checked_add(other)
}

// The value at a place in range.
fn value_at(rows: &Rows, place: u32) -> i64
    requires { place < length rows.now.items }
    ensures { option_map (λ r. r.1) (slice_get rows.now.items place) ≡ Some result }
{
    rows.get(place).1
}
