//! The parts that an attempt has read.
ghost use Rattle.std.specs.Prelude.{◌≡◌, ◌+◌, ◌^◌, ◌<◌, ◌≤◌, ℕ, [], ◌∷◌, ◌++◌, length, OnOk, OnErr, IfSome};
ghost use Rattle.std.specs.List.{Contains, slice_range};
ghost use Rattle.std.specs.Option.{option_map, option_map_or};
ghost use Rattle.sto_part.specs.Index.{place_at, HasRoom};
ghost use Rattle.sto_attempt_log.specs.Placed.{placed};
ghost use Rattle.sto_attempt_log.specs.ReadSet.{words_in, ticket_in};
ghost use Rattle.sto_attempt_log.specs.Flat.{entry_with};

use std::alloc::Global;
use std::marker::Model;
use sto_part::{List, NoMemory, PartIndex, PartWords};

/// A part as an attempt has found it, as contracts see it.
#[derive(Drop)]
pub struct ReadEntry {
    /// The number of the part.
    pub part: u32,
    /// The ticket in its version.
    pub ticket: u64,
    /// Its words.
    pub words: PartWords,
}

/// A part as an attempt has found it, lent.
#[derive(Clone, Copy)]
pub struct ReadRef<'r> {
    /// The number of the part.
    pub part: u32,
    /// The ticket in its version.
    pub ticket: u64,
    /// Its words.
    pub words: &'r [i64],
}

/// A part that was read, and where its words stand.
#[derive(Clone, Copy, Debug)]
pub struct ReadHead {
    /// The number of the part.
    pub part: u32,
    /// The ticket in its version.
    pub ticket: u64,
    /// The place of its first word.
    pub start: u32,
    /// The number of its words.
    pub width: u32,
}

/// Parts in the order in which they were read, each found by its number in one step.
#[derive(Drop)]
pub struct ReadSet {
    heads: List<ReadHead>,
    // The words of all parts, one part after another.
    words: List<i64>,
    // The place of the first of each part.
    places: PartIndex,
}

impl Model for ReadSet {
    ghost use Rattle.std.specs.Prelude.{◌≡◌, ℕ};
    ghost use Rattle.std.specs.List.{All};
    ghost use Rattle.sto_part.specs.Listed.{Listed};
    ghost use Rattle.sto_part.specs.Index.{place_at};
    ghost use Rattle.sto_attempt_log.specs.declared.read_entry.ReadEntry.{ReadEntry};
    ghost use Rattle.sto_attempt_log.specs.Placed.{place_in};
    ghost use Rattle.sto_attempt_log.specs.Flat.{entries_of, IsWithin};

    ghost Value = { Listed ReadEntry };

    ghost view = { λ s. record { items = entries_of s.words.items s.heads.items; spare = s.heads.spare } };

    ghost invariant = { λ s. ((part : ℕ) → place_at s.places part ≡ place_in 0 (entries_of s.words.items s.heads.items) part)
        × All (IsWithin s.words.items) s.heads.items };
}

impl ReadSet {
    /// No part.
    pub fn new(alloc: Global) -> ReadSet
        ensures { result ≡ record { items = []; spare = 0 } }
    {
        ReadSet {
            heads: List::new(alloc),
            words: List::new(alloc),
            places: PartIndex::new(alloc),
        }
    }

    /// How many there are.
    pub fn len(&self) -> u32
        ensures { result ≡ length self.now.items }
    {
        self.heads.len()
    }

    /// Takes all parts away. Their room stays.
    pub fn clear(&mut self)
        ensures { self.new.items ≡ [] }
    {
        self.heads.clear();
        self.words.clear();
        self.places.clear();
    }

    /// Adds a part last.
    #[inline(always)]
    pub fn push(&mut self, part: u32, ticket: u64, words: &[i64]) -> Result<(), NoMemory>
        requires { length self.old.items + 1 < 2 ^ 32 }
        ensures ok { OnOk result (self.new.items ≡ self.old.items ++ entry_with part ticket words.now ∷ []) }
        ensures err { OnErr result (self.new.items ≡ self.old.items) }
    {
        let start = self.words.len();
        if part == u32::MAX || words.len() >= (u32::MAX - start) as usize {
            return Err(NoMemory);
        }
        let width = words.len() as u32;
        make_room(
            &mut self.heads,
            &mut self.words,
            &mut self.places,
            part,
            width,
        )?;
        let place = self.heads.len();
        place_first(&mut self.places, part, place);
        self.heads.push_spare(ReadHead {
            part,
            ticket,
            start,
            width,
        });
        self.words.extend_spare(words);
        Ok(())
    }

    /// The part as it was read; the first counts.
    pub fn find(&self, part: u32) -> Option<ReadRef<'_>>
        ensures words { words_in self.now.items part ≡ option_map (λ s. s.words.now) result }
        ensures ticket { ticket_in self.now.items part ≡ option_map (λ s. s.ticket) result }
        ensures part { IfSome result (λ s. s.part ≡ part) }
        ensures few { IfSome result (λ s. length s.words.now < 2 ^ 32) }
        ensures among { IfSome result (λ s. Contains self.now.items (entry_with s.part s.ticket s.words.now)) }
    {
        match self.places.get(part) {
            Some(place) => {
                let head = *self.heads.get(place);
                Some(ReadRef {
                    part: head.part,
                    ticket: head.ticket,
                    words: cut(self.words.as_slice(), head.start, head.width),
                })
            }
            None => None,
        }
    }

    /// The ticket with which a part was read, or 0.
    pub fn ticket(&self, part: u32) -> u64
        ensures { result ≡ option_map_or (λ t. t) (ticket_in self.now.items part) 0 }
    {
        match self.find(part) {
            Some(read_entry) => read_entry.ticket,
            None => 0,
        }
    }
}

// So many words from a place on.
fn cut(words: &[i64], start: u32, width: u32) -> &[i64]
    requires { start + width ≤ length words.now }
    ensures words { result.now ≡ slice_range words.now start (start + width) }
    ensures length { length result.now ≡ width }
{
    &words[start as usize..start as usize + width as usize]
}

// Makes room for one more part of this width.
fn make_room(
    heads: &mut List<ReadHead>,
    words: &mut List<i64>,
    places: &mut PartIndex,
    part: u32,
    width: u32,
) -> Result<(), NoMemory>
    requires { part + 1 < 2 ^ 32 }
    ensures heads { heads.new.items ≡ heads.old.items }
    ensures words { words.new.items ≡ words.old.items }
    ensures places { (q : ℕ) → place_at places.new q ≡ place_at places.old q }
    ensures heads_room { OnOk result (1 ≤ heads.new.spare) }
    ensures words_room { OnOk result (width ≤ words.new.spare) }
    ensures places_room { OnOk result (HasRoom places.new part) }
{
    heads.reserve(1)?;
    words.reserve(width)?;
    places.reserve(part)?;
    Ok(())
}

// Notes where a part stands, if it stands nowhere yet.
fn place_first(places: &mut PartIndex, part: u32, place: u32)
    requires { HasRoom places.old part }
    ensures { (q : ℕ) → place_at places.new q ≡ placed (place_at places.old) part place q }
{
    if places.get(part).is_none() {
        places.put(part, place);
    }
}
