//! Contents: the words of parts.
ghost use Rattle.std.specs.Prelude.{◌≡◌, ◌+◌, ◌-◌, ◌^◌, ◌<◌, ◌≤◌, [], ◌∷◌, ◌++◌, OnOk, OnErr, IsOk, IfOk, IfErr, MatchOption, length, slice_get, Some};
ghost use Rattle.sto_part.specs.Parts.{zeros, part_of, with_word};

use crate::NoMemory;
use crate::list::List;
use std::alloc::Global;
use std::marker::Model;

/// The words of one part.
pub type PartWords = List<i64>;

/// A list of parts, each a list of words.
#[derive(Drop)]
pub struct Contents {
    parts: List<PartWords>,
}

impl Model for Contents {
    ghost use Rattle.std.specs.Prelude.{ℤ, List, map};
    ghost use Rattle.std.specs.Coded.{coded_list, coded_ℤ};
    ghost use Rattle.sto_part.specs.Listed.{Listed, listed_code};

    ghost Value = { Listed (List ℤ) };

    ghost coded = { listed_code (coded_list coded_ℤ) };

    ghost view = { λ c. record { items = map (λ p. p.items) c.parts.items; spare = c.parts.spare } };
}

impl Contents {
    /// Parts of these widths, with all words 0.
    pub fn new(alloc: Global, widths: &[u32]) -> Result<Contents, NoMemory>
        requires { length widths.now < 2 ^ 32 }
        ensures { IfOk result (λ c. c.items ≡ zeros widths.now) }
    {
        let mut parts = List::new(alloc);
        for width in widths {
            parts.push(PartWords::filled(alloc, 0, *width)?)?;
        }
        Ok(Contents { parts })
    }

    /// The number of parts.
    pub fn parts(&self) -> u32
        ensures { result ≡ length self.now.items }
    {
        self.parts.len()
    }

    /// The number of words of a part in range.
    pub fn width(&self, part: u32) -> u32
        requires { part < length self.now.items }
        ensures { result ≡ length (part_of self.now.items part) }
    {
        self.parts.get(part).len()
    }

    /// A word in range of a part in range.
    pub fn word(&self, part: u32, word: u32) -> i64
        requires { word < length (part_of self.now.items part) }
        ensures { slice_get (part_of self.now.items part) word ≡ Some result }
    {
        *self.parts.get(part).get(word)
    }

    /// Makes this the value of a word in range; all other words stay.
    pub fn set_word(&mut self, part: u32, word: u32, value: i64)
        requires { word < length (part_of self.old.items part) }
        ensures { self.new ≡ record self.old { items = with_word self.old.items part word value } }
    {
        self.parts.get_mut(part).set(word, value);
    }

    /// The number of parts.
    pub fn len(&self) -> u32
        ensures { result ≡ length self.now.items }
    {
        self.parts.len()
    }

    /// The words of the part at a place in range.
    pub fn get(&self, place: u32) -> &PartWords
        requires { place < length self.now.items }
        ensures { slice_get self.now.items place ≡ Some result.now.items }
    {
        self.parts.get(place)
    }

    /// Adds a part last, or hands it back.
    pub fn push(&mut self, item: PartWords) -> Result<(), (PartWords, NoMemory)>
        requires { length self.old.items + 1 < 2 ^ 32 }
        ensures ok { OnOk result (self.new.items ≡ self.old.items ++ item.items ∷ []) }
        ensures succeeds { 1 ≤ self.old.spare → IsOk result }
        ensures room { self.old.spare ≤ self.new.spare + 1 }
        ensures err { OnErr result (self.new ≡ self.old) }
        ensures back { IfErr result (λ e. e.0 ≡ item) }
    {
        self.parts.push(item)
    }

    /// Moves all parts of other contents to the end of these.
    pub fn append(&mut self, more: Contents) -> Result<(), NoMemory>
        requires { length self.old.items + length more.items < 2 ^ 32 }
        ensures ok { OnOk result (self.new.items ≡ self.old.items ++ more.items) }
        ensures succeeds { length more.items ≤ self.old.spare → IsOk result }
        ensures room { self.old.spare ≤ self.new.spare + length more.items }
        ensures err { OnErr result (self.new ≡ self.old) }
    {
        let Contents { parts } = more;
        self.parts.append(parts)
    }

    /// Takes the last part; there is none exactly where the list is empty.
    pub fn pop(&mut self) -> Option<PartWords>
        ensures { MatchOption result ((self.old.items ≡ []) × (self.new ≡ self.old))
            (λ item. (self.old.items ≡ self.new.items ++ item.items ∷ []) × (self.new.spare ≡ self.old.spare + 1)) }
    {
        self.parts.pop()
    }

    /// Makes room for at least so many more parts.
    pub fn reserve(&mut self, more: u32) -> Result<(), NoMemory>
        ensures items { self.new.items ≡ self.old.items }
        ensures ok { OnOk result (more ≤ self.new.spare) }
        ensures succeeds { more ≤ self.old.spare → IsOk result }
        ensures room { self.old.spare ≤ self.new.spare }
        ensures err { OnErr result (self.new ≡ self.old) }
    {
        self.parts.reserve(more)
    }

    /// Adds a part last, where there is room.
    pub fn push_spare(&mut self, item: PartWords)
        requires few { length self.old.items + 1 < 2 ^ 32 }
        requires room { 1 ≤ self.old.spare }
        ensures { self.new ≡ record { items = self.old.items ++ item.items ∷ []; spare = self.old.spare - 1 } }
    {
        self.parts.push_spare(item);
    }
}
