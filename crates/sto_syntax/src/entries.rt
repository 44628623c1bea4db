//! The entries of a schedule.
ghost use Rattle.std.specs.Prelude.{◌≡◌, ◌^◌, ◌<◌, [], ◌∷◌, length, MatchOption, IfSome, is_some, true};
ghost use Rattle.sto_syntax.specs.Lines.{words_of};
ghost use Rattle.sto_syntax.specs.Forms.{all_of, entry_of};

use crate::entry::entry_of;
use crate::{ScheduleEntry, next_word};

/// Whether all words are entries.
fn all_entries(version: u32, rest: &[u8]) -> bool
    ensures { result ≡ is_some (all_of (entry_of version) (words_of rest.now)) }
{
    let mut rest = rest;
    while let Some((word, after)) = next_word(rest) {
        if entry_of(version, word).is_none() {
            return false;
        }
        rest = after;
    }
    true
}

/// Words that are entries.
#[derive(Clone, Copy)]
pub struct Entries<'a> {
    version: u32,
    bytes: &'a [u8],
    ghost entries: { is_some (all_of (entry_of version) (words_of bytes.now)) ≡ true },
    ghost short: { length bytes.now < 2 ^ 32 },
}

impl<'a> Entries<'a> {
    ghost use Rattle.std.specs.List.{list_all};
    ghost use Rattle.sto_syntax.specs.Numbers.{is_good_entry};
    ghost use Rattle.sto_syntax.specs.Views.{entry, entries};

    /// The words of these bytes, where all are entries.
    pub fn of(version: u32, bytes: &'a [u8]) -> Option<Entries<'a>>
        requires { length bytes.now < 2 ^ 32 }
        ensures { MatchOption result (all_of (entry_of version) (words_of bytes.now) ≡ None)
            (λ e. all_of (entry_of version) (words_of bytes.now) ≡ Some (entries e)) }
    {
        if all_entries(version, bytes) {
            Some(Entries { version, bytes })
        } else {
            None
        }
    }

    /// The first entry, and those after it.
    pub fn next(self) -> Option<(ScheduleEntry<'a>, Entries<'a>)>
        ensures found { MatchOption result (entries self.entry ≡ []) (λ found. entries self.entry ≡ entry found.0 ∷ entries found.1) }
        ensures less { IfSome result (λ found. length found.1.bytes.now < length self.entry.bytes.now) }
        ensures short { length self.entry.bytes.now < 2 ^ 32 }
    {
        let Entries { version, bytes } = self;
        let (word, rest) = next_word(bytes)?;
        match entry_of(version, word) {
            Some(entry) => Some((
                entry,
                Entries {
                    version,
                    bytes: rest,
                },
            )),
            None => unreachable!(),
        }
    }

    /// Whether both parts of all are numbers.
    pub fn are_numbers(self) -> bool
        ensures { result ≡ list_all is_good_entry (entries self.entry) }
    {
        let mut rest = self;
        while let Some((entry, after)) = rest.next() {
            if !entry.has_numbers() {
                return false;
            }
            rest = after;
        }
        true
    }
}
