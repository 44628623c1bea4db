//! An entry of a schedule.
ghost use Rattle.std.specs.Prelude.{◌≡◌, [], ◌∷◌, position};
ghost use Rattle.std.specs.List.{slice_split};
ghost use Rattle.sto_syntax.specs.Forms.{entry_of, entry_of_pieces, thread_word, is_colon};
ghost use Rattle.sto_syntax.specs.Views.{thread_word_option, entry_option};

use crate::Name;
use crate::word::number;

/// The thread of an entry: a number, where it is one, or a name.
#[derive(Clone, Copy)]
pub enum ThreadWord<'a> {
    Numbered(Option<i64>),
    Named(Name<'a>),
}

/// The two parts of an entry; one that is no number is `None`.
#[derive(Clone, Copy)]
pub struct ScheduleEntry<'a> {
    pub thread: ThreadWord<'a>,
    pub steps: Option<i64>,
}

impl ScheduleEntry<'_> {
    ghost use Rattle.sto_syntax.specs.Numbers.{is_good_entry};
    ghost use Rattle.sto_syntax.specs.Views.{entry};

    /// Whether its numbers are numbers.
    pub(crate) fn has_numbers(self) -> bool
        ensures { result ≡ is_good_entry (entry self.entry) }
    {
        match self.thread {
            ThreadWord::Numbered(None) => false,
            _ => self.steps.is_some(),
        }
    }
}

/// What names a thread: in version 2 its name, else its number.
fn thread_word(version: u32, word: &[u8]) -> Option<ThreadWord<'_>>
    ensures { thread_word_option result ≡ thread_word version word.now }
{
    if version != 2 {
        return Some(ThreadWord::Numbered(number(word)));
    }
    match Name::of(word) {
        Some(name) => Some(ThreadWord::Named(name)),
        None => None,
    }
}

fn colon(word: &[u8]) -> Option<usize>
    ensures { result ≡ position is_colon word.now }
{
    word.iter().position(|b| *b == b':')
}

/// The entry that a word is.
pub(crate) fn entry_of(version: u32, word: &[u8]) -> Option<ScheduleEntry<'_>>
    ensures { entry_option result ≡ entry_of version word.now }
{
    match colon(word) {
        None => None,
        Some(end) => two_parts(version, &word[..end], &word[end + 1..]),
    }
}

/// The entry, where the second part has no colon.
fn two_parts<'a>(version: u32, thread: &'a [u8], steps: &[u8]) -> Option<ScheduleEntry<'a>>
    ensures { entry_option result ≡ entry_of_pieces version (thread.now ∷ slice_split is_colon steps.now) }
{
    match colon(steps) {
        None => of_parts(version, thread, steps),
        Some(_) => None,
    }
}

/// The entry of two parts.
fn of_parts<'a>(version: u32, thread: &'a [u8], steps: &[u8]) -> Option<ScheduleEntry<'a>>
    ensures { entry_option result ≡ entry_of_pieces version (thread.now ∷ steps.now ∷ []) }
{
    let thread = thread_word(version, thread)?;
    let steps = number(steps);
    Some(ScheduleEntry { thread, steps })
}
