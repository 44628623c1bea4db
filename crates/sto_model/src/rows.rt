//! Rows in rising key order.
ghost use Rattle.std.specs.Prelude.{◌≡◌, ◌+◌, ◌-◌, ◌^◌, ◌<◌, ◌≤◌, [], ◌∷◌, ◌++◌, length, position, OnOk, OnErr, IfErr, IfOk, IsOk, MatchOption, IfSome, slice_get, Some};
ghost use Rattle.std.specs.Ordering.{int_eq};
ghost use Rattle.sto_model.specs.Rows.{IsRising, value_at, has_key, with_row, without, place_of, least_from, rows_between};

use crate::reply::Pairs;
use std::alloc::Global;
use std::marker::Model;
use sto_part::{List, NoMemory};

/// Keys and their values, in rising key order.
#[derive(PartialEq, Eq, Debug, Drop)]
pub struct Rows {
    list: List<(i64, i64)>,
}

impl Model for Rows {
    ghost use Rattle.std.specs.Prelude.{ℤ};
    ghost use Rattle.std.specs.Coded.{coded×, coded_ℤ};
    ghost use Rattle.sto_part.specs.Listed.{Listed, listed_code};
    ghost use Rattle.sto_model.specs.Rows.{IsRising};

    ghost Value = { Listed (ℤ × ℤ) };

    ghost coded = { listed_code (coded× coded_ℤ coded_ℤ) };

    ghost view = { λ r. r.list };

    ghost invariant = { λ r. IsRising r.list.items };

    ghost inverse = { λ l. record { list = l } };
}

impl Rows {
    /// No rows.
    pub fn new(alloc: Global) -> Self
        ensures { result ≡ record { items = []; spare = 0 } }
    {
        Rows {
            list: List::new(alloc),
        }
    }

    /// The number of rows.
    pub fn len(&self) -> u32
        ensures { result ≡ length self.now.items }
    {
        self.list.len()
    }

    /// The row at a place in range, by rising key.
    pub fn get(&self, place: u32) -> &(i64, i64)
        requires { place < length self.now.items }
        ensures { slice_get self.now.items place ≡ Some result.now }
    {
        self.list.get(place)
    }

    /// The rows as a slice.
    pub fn as_slice(&self) -> &[(i64, i64)]
        ensures items { result.now ≡ self.now.items }
        ensures rising { IsRising self.now.items }
        ensures few { length result.now < 2 ^ 32 }
    {
        self.list.as_slice()
    }

    /// Adds a row whose key is above all others, or hands it back.
    pub fn push(&mut self, item: (i64, i64)) -> Result<(), ((i64, i64), NoMemory)>
        requires few { length self.old.items + 1 < 2 ^ 32 }
        requires rising { IsRising (self.old.items ++ item ∷ []) }
        ensures ok { OnOk result (self.new.items ≡ self.old.items ++ item ∷ []) }
        ensures succeeds { 1 ≤ self.old.spare → IsOk result }
        ensures room { self.old.spare ≤ self.new.spare + 1 }
        ensures err { OnErr result (self.new ≡ self.old) }
        ensures back { IfErr result (λ e. e.0 ≡ item) }
    {
        self.list.push(item)
    }

    /// Takes the row with the greatest key.
    pub fn pop(&mut self) -> Option<(i64, i64)>
        ensures { MatchOption result ((self.old.items ≡ []) × (self.new ≡ self.old)) (λ item. (self.old.items ≡ self.new.items ++ item ∷ [])
            × (self.new.spare ≡ self.old.spare + 1)) }
    {
        self.list.pop()
    }

    /// Makes room for so many more rows.
    pub fn reserve(&mut self, more: u32) -> Result<(), NoMemory>
        ensures items { self.new.items ≡ self.old.items }
        ensures ok { OnOk result (more ≤ self.new.spare) }
        ensures succeeds { more ≤ self.old.spare → IsOk result }
        ensures room { self.old.spare ≤ self.new.spare }
        ensures err { OnErr result (self.new ≡ self.old) }
    {
        self.list.reserve(more)
    }

    /// Adds a row whose key is above all others, in the room that there is.
    pub fn push_spare(&mut self, item: (i64, i64))
        requires few { length self.old.items + 1 < 2 ^ 32 }
        requires room { 1 ≤ self.old.spare }
        requires rising { IsRising (self.old.items ++ item ∷ []) }
        ensures { self.new ≡ record { items = self.old.items ++ item ∷ []; spare = self.old.spare - 1 } }
    {
        self.list.push_spare(item);
    }

    /// The same rows in a list of their own.
    pub(crate) fn copied(&self) -> Result<Rows, NoMemory>
        ensures { IfOk result (λ r. r.items ≡ self.now.items) }
    {
        Ok(Rows {
            list: self.list.copied()?,
        })
    }

    /// The value at a key.
    pub(crate) fn value(&self, key: i64) -> Option<i64>
        ensures { result ≡ value_at self.now.items key }
    {
        value_in(self.as_slice(), key)
    }

    /// The least key that is not below this one; None where all keys are below it.
    pub fn next_key(&self, key: i64) -> Option<i64>
        ensures { result ≡ least_from self.now.items key }
    {
        self.as_slice()
            .iter()
            .find(|row| key <= row.0)
            .map(|row| row.0)
    }

    /// How many keys are from `low` to `high`.
    pub fn count_between(&self, low: i64, high: i64) -> u32
        ensures { result ≡ length (rows_between self.now.items low high) }
    {
        self.as_slice()
            .iter()
            .filter(|row| low <= row.0 && row.0 <= high)
            .count() as u32
    }

    /// The rows whose keys are from `low` to `high`, in rising key order.
    pub fn pairs_between(&self, alloc: Global, low: i64, high: i64) -> Result<Pairs, NoMemory>
        ensures { IfOk result (λ p. p.items ≡ rows_between self.now.items low high) }
    {
        let mut pairs = Pairs::new(alloc);
        for row in self.as_slice() {
            if low <= row.0 && row.0 <= high {
                pairs.push(*row)?;
            }
        }
        Ok(pairs)
    }

    /// Makes the value at a key this one, whether the key was there or not.
    ///
    /// After `NoMemory` the rows are as before.
    pub fn put(&mut self, key: i64, value: i64) -> Result<(), NoMemory>
        ensures ok { OnOk result (self.new.items ≡ with_row self.old.items key value) }
        ensures err { OnErr result (self.new.items ≡ self.old.items) }
    {
        put_row(&mut self.list, key, value)
    }

    /// Takes the row with a key away, and tells whether there was one.
    pub(crate) fn remove(&mut self, key: i64) -> bool
        ensures found { result ≡ has_key self.old.items key }
        ensures rows { self.new.items ≡ without self.old.items key }
    {
        remove_row(&mut self.list, key)
    }
}

fn value_in(rows: &[(i64, i64)], key: i64) -> Option<i64>
    requires few { length rows.now < 2 ^ 32 }
    requires rising { IsRising rows.now }
    ensures { result ≡ value_at rows.now key }
{
    let place = place_in(rows, key) as usize;
    if place < rows.len() && rows[place].0 == key {
        Some(rows[place].1)
    } else {
        None
    }
}

// How many rows stand before those of a key and above.
fn place_in(rows: &[(i64, i64)], key: i64) -> u32
    requires few { length rows.now < 2 ^ 32 }
    requires rising { IsRising rows.now }
    ensures { result ≡ place_of rows.now key }
{
    rows.partition_point(|row| row.0 < key) as u32
}

// Where the row of a key stands.
fn place_at(rows: &[(i64, i64)], key: i64) -> Option<usize>
    ensures place { result ≡ position (λ r. int_eq r.0 key) rows.now }
    ensures range { IfSome result (λ place. place < length rows.now) }
{
    rows.iter().position(|row| row.0 == key)
}

fn put_row(list: &mut List<(i64, i64)>, key: i64, value: i64) -> Result<(), NoMemory>
    requires { IsRising list.old.items }
    ensures ok { OnOk result (list.new.items ≡ with_row list.old.items key value) }
    ensures err { OnErr result (list.new.items ≡ list.old.items) }
{
    let place = place_in(list.as_slice(), key);
    if place < list.len() && list.get(place).0 == key {
        list.set(place, (key, value));
    } else {
        if list.len() == u32::MAX {
            return Err(NoMemory);
        }
        list.reserve(1)?;
        list.insert_spare(place, (key, value));
    }
    Ok(())
}

fn remove_row(list: &mut List<(i64, i64)>, key: i64) -> bool
    ensures found { result ≡ has_key list.old.items key }
    ensures rows { list.new.items ≡ without list.old.items key }
{
    match place_at(list.as_slice(), key) {
        Some(place) => {
            list.remove(place as u32);
            true
        }
        None => false,
    }
}
