//! The words that a commit has read.
ghost use Rattle.std.specs.Prelude.{◌≡◌, ◌+◌, ◌-◌, ◌^◌, ◌<◌, ◌≤◌, [], ◌∷◌, ◌++◌, length, OnOk, MatchOption};
ghost use Rattle.sto_core.specs.Reads.{value_read};
ghost use Rattle.sto_attempt_log.specs.CommitPhases.{reads_of, is_load_of};
ghost use Rattle.sto_attempt_log.specs.Ordered.{is_before, AreInOrder, RisesUpTo, HasValue, HasNoValue};

use crate::commit_phase::LoadedWord;
use std::alloc::Global;
use std::marker::Model;
use sto_part::{List, NoMemory};

/// Words in the order in which they were read; the first one of a place counts.
///
/// A commit reads part by part in rising order, and the words of each in order. So they rise, and a word is found in
/// logarithmic time.
#[derive(Drop)]
pub struct LoadedWords {
    list: List<LoadedWord>,
    // So many of the first rise.
    rising: u32,
}

impl Model for LoadedWords {
    ghost use Rattle.sto_part.specs.Listed.{Listed};
    ghost use Rattle.sto_attempt_log.specs.declared.commit_phase.LoadedWord.{LoadedWord};
    ghost use Rattle.sto_attempt_log.specs.Ordered.{RisesUpTo};

    ghost Value = { Listed LoadedWord };

    ghost view = { λ l. l.list };

    ghost invariant = { λ l. RisesUpTo l.rising l.list.items };
}

impl LoadedWords {
    /// No word.
    pub fn new(alloc: Global) -> LoadedWords
        ensures { result ≡ record { items = []; spare = 0 } }
    {
        LoadedWords {
            list: List::new(alloc),
            rising: 0,
        }
    }

    /// Takes all words away. Their room stays.
    pub fn clear(&mut self)
        ensures { self.new.items ≡ [] }
    {
        self.list.clear();
        self.rising = 0;
    }

    /// Makes room for at least so many more.
    pub fn reserve(&mut self, more: u32) -> Result<(), NoMemory>
        ensures items { self.new.items ≡ self.old.items }
        ensures ok { OnOk result (more ≤ self.new.spare) }
    {
        self.list.reserve(more)
    }

    /// Adds one last, where there is room for it.
    pub fn push_spare(&mut self, loaded: LoadedWord)
        requires few { length self.old.items + 1 < 2 ^ 32 }
        requires room { 1 ≤ self.old.spare }
        ensures { self.new ≡ record { items = self.old.items ++ loaded ∷ []; spare = self.old.spare - 1 } }
    {
        self.rising = rising_with(self.list.as_slice(), self.rising, &loaded);
        self.list.push_spare(loaded);
    }

    /// The word that was read first at a place, or 0.
    #[inline(always)]
    pub fn value(&self, part: u32, word: u32) -> i64
        ensures { result ≡ value_read (reads_of self.now.items part) word }
    {
        let (rising, rest) = self.list.as_slice().split_at(self.rising as usize);
        match value_in(rising, part, word) {
            Some(value) => value,
            None => value_of(rest, part, word),
        }
    }
}

// How many of the first rise, with one more at the end.
fn rising_with(loaded_words: &[LoadedWord], rising: u32, next: &LoadedWord) -> u32
    requires few { length loaded_words.now + 1 < 2 ^ 32 }
    requires rises { RisesUpTo rising loaded_words.now }
    ensures { RisesUpTo result (loaded_words.now ++ next.now ∷ []) }
{
    if (rising as usize) < loaded_words.len() {
        return rising;
    }
    match loaded_words.last() {
        Some(last) => {
            if is_before(last, next.part, next.word) {
                rising + 1
            } else {
                rising
            }
        }
        None => rising + 1,
    }
}

// Whether a word comes before a place.
fn is_before(load: &LoadedWord, part: u32, word: u32) -> bool
    ensures { result ≡ is_before part word load.now }
{
    load.part < part || (load.part == part && load.word < word)
}

// The word at a place, where the words rise.
fn value_in(loaded_words: &[LoadedWord], part: u32, word: u32) -> Option<i64>
    requires { AreInOrder loaded_words.now }
    ensures { MatchOption result (HasNoValue part word loaded_words.now) (HasValue part word loaded_words.now) }
{
    let place = loaded_words.partition_point(|load| is_before(load, part, word));
    if place < loaded_words.len() && is_at(&loaded_words[place], part, word) {
        Some(loaded_words[place].value)
    } else {
        None
    }
}

// The word at a place, or 0.
fn value_of(loaded_words: &[LoadedWord], part: u32, word: u32) -> i64
    ensures { result ≡ value_read (reads_of loaded_words.now part) word }
{
    for load in loaded_words {
        if is_at(load, part, word) {
            return load.value;
        }
    }
    0
}

fn is_at(load: &LoadedWord, part: u32, word: u32) -> bool
    ensures { result ≡ is_load_of part word load.now }
{
    load.part == part && load.word == word
}
