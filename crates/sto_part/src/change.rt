//! Changes of words, and how two of them compose.
ghost use Rattle.std.specs.Prelude.{◌≡◌, ℤ, ◌<◌, IfOk, length, replicate, slice_get, slice_set, Some};
ghost use Rattle.sto_part.specs.Changes.{applied, composed, wrapped_sum, wrapped_difference};

use crate::NoMemory;
use crate::list::List;
use std::alloc::Global;

/// What becomes of a word.
#[derive(Clone, Copy, PartialEq, Eq, Debug)]
pub enum Change {
    /// It stays.
    Keep,
    /// It becomes this number, whatever it was.
    Put(i64),
    /// It grows by this number, modulo 2^64 and read as signed.
    Add(i64),
}

/// The change of each word of a part.
pub type Update = List<Change>;

impl Update {
    /// An update that keeps each of so many words.
    pub fn keep(alloc: Global, width: u32) -> Result<Update, NoMemory>
        ensures { IfOk result (λ u. u.items ≡ replicate width Change.Keep) }
    {
        Update::filled(alloc, Change::Keep, width)
    }

    /// The change of a word in range.
    pub fn change(&self, word: u32) -> Change
        requires { word < length self.now.items }
        ensures { slice_get self.now.items word ≡ Some result }
    {
        *self.get(word)
    }

    /// Makes this the change of a word in range; all others stay.
    pub fn set_change(&mut self, word: u32, change: Change)
        requires { word < length self.old.items }
        ensures { self.new ≡ record self.old { items = slice_set self.old.items word change } }
    {
        self.set(word, change);
    }
}

/// What a change makes of a word: the word itself, the put number, or the wrapping sum.
pub fn apply_word(change: Change, old: i64) -> i64
    ensures { result ≡ applied change old }
{
    match change {
        Change::Keep => old,
        Change::Put(value) => value,
        Change::Add(more) => wrapping_sum(old, more),
    }
}

/// The one change that does what both do, the first before the second.
#[tactic(auto, using(crate::specs::Changes::applied_composed))]
pub fn then(first: Change, second: Change) -> Change
    ensures change { result ≡ composed first second }
    ensures law { (x : ℤ) → applied result x ≡ applied second (applied first x) }
{
    match (first, second) {
        (_, Change::Put(value)) => Change::Put(value),
        (_, Change::Keep) => first,
        (Change::Keep, Change::Add(more)) => Change::Add(more),
        (Change::Put(value), Change::Add(more)) => Change::Put(wrapping_sum(value, more)),
        (Change::Add(some), Change::Add(more)) => Change::Add(wrapping_sum(some, more)),
    }
}

/// The sum modulo 2^64, read as signed.
pub fn wrapping_sum(one: i64, other: i64) -> i64
    ensures { result ≡ wrapped_sum one other }
{
    one.wrapping_add(other)
}

/// The difference modulo 2^64, read as signed.
pub fn wrapping_difference(one: i64, other: i64) -> i64
    ensures { result ≡ wrapped_difference one other }
{
    one.wrapping_sub(other)
}
