//! What a call does to the rows of one object.
ghost use Rattle.std.specs.Prelude.{◌≡◌, ◌<◌, ◌^◌, ◌↔◌, ◌+ℤ◌, ◌-ℤ◌, pos, length, Some, OnOk, OnErr, IfOk, IsTrue};
ghost use Rattle.sto_model.specs.PlainReplies.{plain_reply};
ghost use Rattle.sto_model.specs.Rows.{keys_beside};
ghost use Rattle.sto_model.specs.Objects.{only_value, value_or_absent, in_range, added_at, box_effect, counter_effect, array_effect, hash_effect, tree_effect, put_effect, remove_effect, vector_effect, push_effect, pop_effect, effect_of, takes_call, IsTaken};

use crate::call::Call;
use crate::operation::{Operation, test_at};
use crate::reply::Reply;
use crate::rows::Rows;
use crate::shape::{Shape, Shapes};
use std::alloc::Global;
use sto_part::{NoMemory, compare};

/// Whether a call is one that its object's shape takes.
///
/// A box takes get and set; a counter get, add, test with a number from 0 to 5, and take; an array
/// get, set and add; a hash table get, put, remove, has and len; a tree get, put, remove, len,
/// next, count and scan; a vector get, test with a number from 0 to 5, len, push and pop.
pub fn takes(shapes: &Shapes, call: &Call) -> bool
    ensures { IsTrue result ↔ IsTaken shapes.now.items call.now }
{
    if call.object < shapes.len() {
        shapes.get(call.object).takes_call(call)
    } else {
        false
    }
}

pub(crate) fn ask_rows(
    alloc: Global,
    rows: &mut Rows,
    shape: Shape,
    call: &Call,
) -> Result<Reply, NoMemory>
    requires { IsTrue (takes_call shape call.now) }
    ensures reply { IfOk result (λ r. plain_reply r ≡ (effect_of shape call.now.operation call.now.a call.now.b rows.old.items).reply) }
    ensures after { OnOk result (rows.new.items ≡ (effect_of shape call.now.operation call.now.a call.now.b rows.old.items).after) }
    ensures err { OnErr result (rows.new.items ≡ rows.old.items) }
{
    let (operation, a, b) = (call.operation, call.a, call.b);
    match shape {
        Shape::Single(_) => ask_box(rows, operation, a),
        Shape::Counter(_) => ask_counter(rows, operation, a, b),
        Shape::Array { .. } => ask_array(rows, operation, a, b),
        Shape::Hash { buckets, places } => ask_hash(rows, buckets, places, operation, a, b),
        Shape::Tree { leaves } => ask_tree(alloc, rows, leaves, operation, a, b),
        Shape::Vector { capacity } => ask_vector(rows, capacity, operation, a, b),
    }
}

fn ask_box(rows: &mut Rows, operation: Operation, a: i64) -> Result<Reply, NoMemory>
    ensures reply { IfOk result (λ r. plain_reply r ≡ (box_effect operation a rows.old.items).reply) }
    ensures after { OnOk result (rows.new.items ≡ (box_effect operation a rows.old.items).after) }
    ensures err { OnErr result (rows.new.items ≡ rows.old.items) }
{
    match operation {
        Operation::Get => Ok(Reply::Value(value_of_one(rows))),
        Operation::Set => {
            rows.put(0, a)?;
            Ok(Reply::Done)
        }
        _ => Ok(Reply::Absent),
    }
}

fn ask_counter(rows: &mut Rows, operation: Operation, a: i64, b: i64) -> Result<Reply, NoMemory>
    ensures reply { IfOk result (λ r. plain_reply r ≡ (counter_effect operation a b rows.old.items).reply) }
    ensures after { OnOk result (rows.new.items ≡ (counter_effect operation a b rows.old.items).after) }
    ensures err { OnErr result (rows.new.items ≡ rows.old.items) }
{
    let value = value_of_one(rows);
    match operation {
        Operation::Get => Ok(Reply::Value(value)),
        Operation::Add => match checked_sum(value, a) {
            Some(sum) => {
                rows.put(0, sum)?;
                Ok(Reply::Done)
            }
            None => Ok(Reply::Range),
        },
        Operation::Test => match test_at(a) {
            Some(test) => Ok(Reply::Flag(compare(test, value, b))),
            None => Ok(Reply::Flag(false)),
        },
        Operation::Take => {
            if a <= value {
                match checked_difference(value, a) {
                    Some(difference) => {
                        rows.put(0, difference)?;
                        Ok(Reply::Flag(true))
                    }
                    None => Ok(Reply::Range),
                }
            } else {
                Ok(Reply::Flag(false))
            }
        }
        _ => Ok(Reply::Absent),
    }
}

fn ask_array(rows: &mut Rows, operation: Operation, a: i64, b: i64) -> Result<Reply, NoMemory>
    ensures reply { IfOk result (λ r. plain_reply r ≡ (array_effect operation a b rows.old.items).reply) }
    ensures after { OnOk result (rows.new.items ≡ (array_effect operation a b rows.old.items).after) }
    ensures err { OnErr result (rows.new.items ≡ rows.old.items) }
{
    let value = rows.value(a);
    match operation {
        Operation::Get => Ok(shown(value)),
        Operation::Set => match value {
            Some(_) => {
                rows.put(a, b)?;
                Ok(Reply::Done)
            }
            None => Ok(Reply::Absent),
        },
        Operation::Add => match value {
            Some(old) => add_to_row(rows, a, old, b),
            None => Ok(Reply::Absent),
        },
        _ => Ok(Reply::Absent),
    }
}

fn ask_hash(
    rows: &mut Rows,
    buckets: u32,
    places: u32,
    operation: Operation,
    a: i64,
    b: i64,
) -> Result<Reply, NoMemory>
    requires { 0 < buckets }
    ensures reply { IfOk result (λ r. plain_reply r ≡ (hash_effect buckets places operation a b rows.old.items).reply) }
    ensures after { OnOk result (rows.new.items ≡ (hash_effect buckets places operation a b rows.old.items).after) }
    ensures err { OnErr result (rows.new.items ≡ rows.old.items) }
{
    match operation {
        Operation::Get => Ok(shown(rows.value(a))),
        Operation::Put => {
            let full = places <= beside(rows, buckets, a);
            put_pair(rows, full, a, b)
        }
        Operation::Remove => Ok(remove_pair(rows, a)),
        Operation::Has => Ok(Reply::Flag(rows.value(a).is_some())),
        Operation::Len => Ok(Reply::Value(i64::from(rows.len()))),
        _ => Ok(Reply::Absent),
    }
}

fn ask_tree(
    alloc: Global,
    rows: &mut Rows,
    leaves: u32,
    operation: Operation,
    a: i64,
    b: i64,
) -> Result<Reply, NoMemory>
    ensures reply { IfOk result (λ r. plain_reply r ≡ (tree_effect leaves operation a b rows.old.items).reply) }
    ensures after { OnOk result (rows.new.items ≡ (tree_effect leaves operation a b rows.old.items).after) }
    ensures err { OnErr result (rows.new.items ≡ rows.old.items) }
{
    match operation {
        Operation::Get => Ok(shown(rows.value(a))),
        Operation::Put => {
            let full = 4 * u64::from(leaves) <= u64::from(rows.len());
            put_pair(rows, full, a, b)
        }
        Operation::Remove => Ok(remove_pair(rows, a)),
        Operation::Len => Ok(Reply::Value(i64::from(rows.len()))),
        Operation::Next => Ok(shown(rows.next_key(a))),
        Operation::Count => Ok(Reply::Value(i64::from(rows.count_between(a, b)))),
        Operation::Scan => Ok(Reply::Pairs(rows.pairs_between(alloc, a, b)?)),
        _ => Ok(Reply::Absent),
    }
}

fn ask_vector(
    rows: &mut Rows,
    capacity: u32,
    operation: Operation,
    a: i64,
    b: i64,
) -> Result<Reply, NoMemory>
    ensures reply { IfOk result (λ r. plain_reply r ≡ (vector_effect capacity operation a b rows.old.items).reply) }
    ensures after { OnOk result (rows.new.items ≡ (vector_effect capacity operation a b rows.old.items).after) }
    ensures err { OnErr result (rows.new.items ≡ rows.old.items) }
{
    match operation {
        Operation::Get => Ok(shown(rows.value(a))),
        Operation::Test => match test_at(a) {
            Some(test) => Ok(Reply::Flag(compare(test, i64::from(rows.len()), b))),
            None => Ok(Reply::Flag(false)),
        },
        Operation::Len => Ok(Reply::Value(i64::from(rows.len()))),
        Operation::Push => {
            let full = capacity <= rows.len();
            push_value(rows, full, a)
        }
        Operation::Pop => Ok(pop_value(rows)),
        _ => Ok(Reply::Absent),
    }
}

// The value of the one row, or 0 where there is none.
fn value_of_one(rows: &Rows) -> i64
    ensures { result ≡ only_value rows.now.items }
{
    rows.value(0).unwrap_or(0)
}

// The sum, where it is a number of 64 bits.
fn checked_sum(one: i64, other: i64) -> Option<i64>
    ensures { result ≡ in_range (one +ℤ other) }
{
    one.checked_add(other)
}

// The difference, where it is one.
fn checked_difference(one: i64, other: i64) -> Option<i64>
    ensures { result ≡ in_range (one -ℤ other) }
{
    one.checked_sub(other)
}

// Adds to the value of a key.
fn add_to_row(rows: &mut Rows, key: i64, value: i64, more: i64) -> Result<Reply, NoMemory>
    ensures reply { IfOk result (λ r. plain_reply r ≡ (added_at (Some value) key more rows.old.items).reply) }
    ensures after { OnOk result (rows.new.items ≡ (added_at (Some value) key more rows.old.items).after) }
    ensures err { OnErr result (rows.new.items ≡ rows.old.items) }
{
    match checked_sum(value, more) {
        Some(sum) => {
            rows.put(key, sum)?;
            Ok(Reply::Done)
        }
        None => Ok(Reply::Range),
    }
}

fn shown(value: Option<i64>) -> Reply
    ensures { plain_reply result ≡ value_or_absent value }
{
    match value {
        Some(value) => Reply::Value(value),
        None => Reply::Absent,
    }
}

fn put_pair(rows: &mut Rows, full: bool, key: i64, value: i64) -> Result<Reply, NoMemory>
    ensures reply { IfOk result (λ r. plain_reply r ≡ (put_effect full key value rows.old.items).reply) }
    ensures after { OnOk result (rows.new.items ≡ (put_effect full key value rows.old.items).after) }
    ensures err { OnErr result (rows.new.items ≡ rows.old.items) }
{
    if rows.value(key).is_none() && full {
        Ok(Reply::Full)
    } else {
        rows.put(key, value)?;
        Ok(Reply::Done)
    }
}

fn remove_pair(rows: &mut Rows, key: i64) -> Reply
    ensures reply { plain_reply result ≡ (remove_effect key rows.old.items).reply }
    ensures after { rows.new.items ≡ (remove_effect key rows.old.items).after }
{
    Reply::Flag(rows.remove(key))
}

fn push_value(rows: &mut Rows, full: bool, value: i64) -> Result<Reply, NoMemory>
    ensures reply { IfOk result (λ r. plain_reply r ≡ (push_effect full value rows.old.items).reply) }
    ensures after { OnOk result (rows.new.items ≡ (push_effect full value rows.old.items).after) }
    ensures err { OnErr result (rows.new.items ≡ rows.old.items) }
{
    if full {
        Ok(Reply::Full)
    } else {
        let last = i64::from(rows.len());
        rows.put(last, value)?;
        Ok(Reply::Done)
    }
}

fn pop_value(rows: &mut Rows) -> Reply
    ensures reply { plain_reply result ≡ (pop_effect (length rows.old.items) rows.old.items).reply }
    ensures after { rows.new.items ≡ (pop_effect (length rows.old.items) rows.old.items).after }
{
    let size = rows.len();
    if size == 0 {
        return Reply::Absent;
    }
    let last = i64::from(size - 1);
    match rows.value(last) {
        Some(value) => {
            rows.remove(last);
            Reply::Value(value)
        }
        None => Reply::Absent,
    }
}

// How many keys stand in the bucket of a key.
fn beside(rows: &Rows, buckets: u32, key: i64) -> u32
    requires { 0 < buckets }
    ensures { result ≡ keys_beside rows.now.items buckets key }
{
    let modulus = i64::from(buckets);
    let bucket = key.rem_euclid(modulus);
    rows.as_slice()
        .iter()
        .filter(|row| row.0.rem_euclid(modulus) == bucket)
        .count() as u32
}
