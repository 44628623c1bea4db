//! Lists that contracts see as their items and their room.
ghost use Rattle.std.specs.Prelude.{◌≡◌, ◌+◌, ◌-◌, ◌^◌, ◌<◌, ◌≤◌, ◌↔◌, IsTrue, [], ◌∷◌, ◌++◌, length, OnOk, OnErr, IsOk, IfOk, IfErr, MatchOption, MatchResult, slice_index_or, slice_get, slice_set, Some, replicate};
ghost use Rattle.std.specs.Borrow.{sem};
ghost use Rattle.std.specs.List.{insert, remove};
ghost use Rattle.std.specs.Cmp.Lexicographic.{pointwise, lists_per, lists_equiv};
ghost use Rattle.std.specs.Cmp.{on_per, on_equiv};

use crate::NoMemory;
use std::alloc::{AllocError, Global};
use std::marker::Model;

/// A list of items in order, which keeps its allocator.
///
/// Contracts see the items and `spare`, for how many more of them the list has room. A place is
/// a u32, so a list has fewer than 2^32 items, and each call that lengthens one asks so. Where
/// memory is wanting the list stays as it was, its room too.
#[derive(Debug, Drop)]
pub struct List<T> {
    vec: Vec<T>,
}

impl<T> Model for List<T> {
    ghost use Rattle.std.specs.Prelude.{◌-◌, ◌<◌, ◌^◌};
    ghost use Rattle.std.specs.Vec.{vec_len, vec_capacity};
    ghost use Rattle.sto_part.specs.Listed.{Listed, listed_code};

    ghost Value = { Listed T };

    ghost coded = { listed_code T.code };

    ghost view = { λ l. record { items = l.vec.items; spare = vec_capacity l.vec - vec_len l.vec } };

    ghost invariant = { λ l. vec_len l.vec < 2 ^ 32 };
}

impl<T> List<T> {
    /// A list with no item.
    pub fn new(alloc: Global) -> Self
        ensures { result ≡ record { items = []; spare = 0 } }
    {
        List {
            vec: Vec::new(alloc),
        }
    }

    /// The number of items.
    pub fn len(&self) -> u32
        ensures { result ≡ length self.now.items }
    {
        self.vec.len() as u32
    }

    /// Lends the item at a place in range.
    pub fn get(&self, place: u32) -> &T
        requires { place < length self.now.items }
        ensures { slice_get self.now.items place ≡ Some result.now }
    {
        &self.vec[place as usize]
    }

    /// Adds an item last, or hands it back. With room for one it succeeds.
    pub fn push(&mut self, item: T) -> Result<(), (T, NoMemory)>
        requires { length self.old.items + 1 < 2 ^ 32 }
        ensures ok { OnOk result (self.new.items ≡ self.old.items ++ item ∷ []) }
        ensures succeeds { 1 ≤ self.old.spare → IsOk result }
        ensures room { self.old.spare ≤ self.new.spare + 1 }
        ensures err { OnErr result (self.new ≡ self.old) }
        ensures back { IfErr result (λ e. e.0 ≡ item) }
    {
        match self.vec.reserve(1) {
            Ok(()) => {
                self.vec.push_reserved(item);
                Ok(())
            }
            Err(AllocError) => Err((item, NoMemory)),
        }
    }

    /// The items as a slice.
    pub fn as_slice(&self) -> &[T]
        ensures items { result.now ≡ self.now.items }
        ensures few { length result.now < 2 ^ 32 }
    {
        self.vec.as_slice()
    }

    /// The allocator that the list was made with.
    pub fn allocator(&self) -> Global {
        *self.vec.allocator()
    }

    /// Whether the list has no item.
    pub fn is_empty(&self) -> bool
        ensures { IsTrue result ↔ (self.now.items ≡ []) }
    {
        self.vec.is_empty()
    }

    /// Takes the item at a place in range; those behind it move up.
    pub fn remove(&mut self, place: u32) -> T
        requires { place < length self.old.items }
        ensures item { slice_get self.old.items place ≡ Some result }
        ensures rest { self.new ≡ record { items = remove self.old.items place; spare = self.old.spare + 1 } }
    {
        self.vec.remove(place as usize)
    }

    /// Adds an item at a place, where there is room; those that stood there and behind move down.
    pub fn insert_spare(&mut self, place: u32, item: T)
        requires few { length self.old.items + 1 < 2 ^ 32 }
        requires room { 1 ≤ self.old.spare }
        requires place { place ≤ length self.old.items }
        ensures { self.new ≡ record { items = insert self.old.items place item; spare = self.old.spare - 1 } }
    {
        match self.vec.insert(place as usize, item) {
            Ok(()) => {}
            Err(_) => unreachable!(),
        }
    }

    /// Takes the last item; there is none exactly where the list is empty.
    pub fn pop(&mut self) -> Option<T>
        ensures { MatchOption result ((self.old.items ≡ []) × (self.new ≡ self.old)) (λ item. (self.old.items ≡ self.new.items ++ item ∷ [])
            × (self.new.spare ≡ self.old.spare + 1)) }
    {
        self.vec.pop()
    }

    /// Makes room for at least so many more items.
    pub fn reserve(&mut self, more: u32) -> Result<(), NoMemory>
        ensures items { self.new.items ≡ self.old.items }
        ensures ok { OnOk result (more ≤ self.new.spare) }
        ensures succeeds { more ≤ self.old.spare → IsOk result }
        ensures room { self.old.spare ≤ self.new.spare }
        ensures err { OnErr result (self.new ≡ self.old) }
    {
        match self.vec.reserve(more as usize) {
            Ok(()) => Ok(()),
            Err(AllocError) => Err(NoMemory),
        }
    }

    /// Adds an item last, where there is room for it; it cannot be refused.
    pub fn push_spare(&mut self, item: T)
        requires few { length self.old.items + 1 < 2 ^ 32 }
        requires room { 1 ≤ self.old.spare }
        ensures { self.new ≡ record { items = self.old.items ++ item ∷ []; spare = self.old.spare - 1 } }
    {
        self.vec.push_reserved(item);
    }
}

impl<T> List<T> {
    ghost use Rattle.sto_part.specs.Lends.{LendsItem};

    /// Lends the item at a place in range to be written.
    pub fn get_mut(&mut self, place: u32) -> &mut T
        requires { place < length self.old.items }
        ensures* writes_back { sem 𝓛 (LendsItem T.row self.entry place result) }
        ensures value { slice_get self.old.items place ≡ Some result.now }
    {
        &mut self.vec[place as usize]
    }
}

impl<T: Drop> List<T> {
    ghost use Rattle.sto_part.specs.Listed.{with_item};

    /// Makes this the item at a place in range.
    pub fn set(&mut self, place: u32, item: T)
        requires { place < length self.old.items }
        ensures { self.new ≡ with_item self.old place item }
    {
        self.vec[place as usize] = item;
    }

    /// Takes all items away. Their room stays.
    pub fn clear(&mut self)
        ensures { self.new ≡ record { items = []; spare = self.old.spare + length self.old.items } }
    {
        self.vec.clear();
    }

    /// Moves all items of another list to the end of this one.
    pub fn append(&mut self, mut more: List<T>) -> Result<(), NoMemory>
        requires { length self.old.items + length more.items < 2 ^ 32 }
        ensures ok { OnOk result (self.new.items ≡ self.old.items ++ more.items) }
        ensures succeeds { length more.items ≤ self.old.spare → IsOk result }
        ensures room { self.old.spare ≤ self.new.spare + length more.items }
        ensures err { OnErr result (self.new ≡ self.old) }
    {
        self.reserve(more.len())?;
        match self.vec.append(&mut more.vec) {
            Ok(()) => Ok(()),
            Err(AllocError) => unreachable!(),
        }
    }
}

impl<T: Copy> List<T> {
    /// The same items in a list of its own.
    pub fn copied(&self) -> Result<Self, NoMemory>
        ensures { IfOk result (λ l. l.items ≡ self.now.items) }
    {
        match Vec::from_slice(self.allocator(), self.vec.as_slice()) {
            Ok(vec) => Ok(List { vec }),
            Err(AllocError) => Err(NoMemory),
        }
    }

    /// Adds all of a slice last, in the room that the list has.
    pub fn extend_spare(&mut self, items: &[T])
        requires few { length self.old.items + length items.now < 2 ^ 32 }
        requires room { length items.now ≤ self.old.spare }
        ensures { self.new ≡ record { items = self.old.items ++ items.now; spare = self.old.spare - length items.now } }
    {
        for item in items {
            self.push_spare(*item);
        }
    }

    /// Adds all of a slice last.
    pub fn extend(&mut self, items: &[T]) -> Result<(), NoMemory>
        requires { length self.old.items + length items.now < 2 ^ 32 }
        ensures ok { OnOk result (self.new.items ≡ self.old.items ++ items.now) }
        ensures succeeds { length items.now ≤ self.old.spare → IsOk result }
        ensures err { OnErr result (self.new ≡ self.old) }
    {
        self.reserve(items.len() as u32)?;
        self.extend_spare(items);
        Ok(())
    }

    /// So many times the same item.
    pub fn filled(alloc: Global, item: T, count: u32) -> Result<Self, NoMemory>
        ensures { IfOk result (λ l. l.items ≡ replicate count item) }
    {
        let mut made = List::new(alloc);
        for _ in 0..count {
            made.push(item)?;
        }
        Ok(made)
    }
}

impl<T: PartialEq> PartialEq for List<T> {
    ghost eq = { λ x y. pointwise T.eq x.items y.items };

    ghost laws = { on_per (λ x. x.items) (lists_per T.laws) };

    fn eq(&self, other: &Self) -> bool {
        self.vec == other.vec
    }
}

impl<T: Eq> Eq for List<T> {
    ghost laws = { on_equiv (λ x. x.items) (lists_equiv T.Eq.laws) };
}
