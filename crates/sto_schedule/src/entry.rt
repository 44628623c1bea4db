//! The entries of a schedule, for the threads of a file.
ghost use Rattle.std.specs.Prelude.{◌≡◌, ◌<◌, ◌^◌, length, map, position, IfOk, true};
ghost use Rattle.std.specs.List.{list_all};
ghost use Rattle.std.specs.Str.{bytes_eq};
ghost use Rattle.sto_syntax.specs.Views.{entries as entries_of, entry as entry_of, thread_word};
ghost use Rattle.sto_lang.specs.Drafts.{thread_number, turns_of};
ghost use Rattle.sto_lang.specs.Limits.{has_range, has_thread, is_in_range, is_turn};
ghost use Rattle.sto_lang.specs.Shapes.{natural, in_range};
ghost use Rattle.sto_lang.specs.Uses.{is_known_thread};
ghost use Rattle.sto_lang.specs.Views.{names_of};

use std::alloc::Global;
use sto_lang::{Schedule, Thread, Turns};
use sto_part::NoMemory;
use sto_syntax::{Entries, Name, ScheduleEntry, ThreadWord};

// Where the first thread with a name is.
fn thread_at(threads: &[Thread], name: Name<'_>) -> Option<usize>
    ensures { result ≡ position (λ t. bytes_eq name.entry.bytes.now t.name.items) threads.now }
{
    let wanted = name.bytes();
    threads
        .iter()
        .position(|thread| wanted == thread.name.as_bytes())
}

// The same of the names of the threads.
fn place_of(threads: &[Thread], name: Name<'_>) -> Option<usize>
    ensures { result ≡ position (bytes_eq name.entry.bytes.now) (names_of threads.now) }
{
    thread_at(threads, name)
}

// Whether the word of a thread is a number, or the name of one.
fn is_known_thread(threads: &[Thread], word: ThreadWord<'_>) -> bool
    ensures { result ≡ is_known_thread (names_of threads.now) (thread_word word.entry) }
{
    match word {
        ThreadWord::Numbered(_) => true,
        ThreadWord::Named(name) => place_of(threads, name).is_some(),
    }
}

/// Whether each entry is that of a number, or of the name of a thread.
pub(crate) fn are_known_threads(threads: &[Thread], entries: Entries<'_>) -> bool
    ensures { result ≡ list_all (λ entry. is_known_thread (names_of threads.now) entry.thread) (entries_of entries.entry) }
{
    let mut rest = entries;
    while let Some((entry, after)) = rest.next() {
        if !is_known_thread(threads, entry.thread) {
            return false;
        }
        rest = after;
    }
    true
}

// The number of a place that has one from 0 to 2^32 - 1.
fn natural(value: Option<i64>) -> u32
    requires { natural value < 2 ^ 32 }
    ensures { result ≡ natural value }
{
    match value {
        Some(number) if 0 <= number => number as u32,
        _ => 0,
    }
}

// Whether there is a number from low to high.
fn in_range(low: u32, high: u32, value: Option<i64>) -> bool
    ensures { result ≡ in_range low high value }
{
    match value {
        Some(number) => i64::from(low) <= number && number <= i64::from(high),
        None => false,
    }
}

fn has_range(word: ThreadWord<'_>) -> bool
    ensures { result ≡ has_range (thread_word word.entry) }
{
    match word {
        ThreadWord::Numbered(value) => in_range(0, 1_000_000, value),
        ThreadWord::Named(_) => true,
    }
}

#[tactic(auto, using(sto_lang::proofs::LimitLemmas::at_most))]
fn has_thread(threads: u32, word: ThreadWord<'_>) -> bool
    requires { has_range (thread_word word) ≡ true }
    ensures { result ≡ has_thread threads (thread_word word.entry) }
{
    match word {
        ThreadWord::Numbered(value) => natural(value) < threads,
        ThreadWord::Named(_) => true,
    }
}

// Whether an entry has the number of one of so many threads and 1 to 1,000,000 steps.
fn is_turn(threads: u32, entry: ScheduleEntry<'_>) -> bool
    ensures { result ≡ is_turn threads (entry_of entry.entry) }
{
    has_range(entry.thread)
        && in_range(1, 1_000_000, entry.steps)
        && has_thread(threads, entry.thread)
}

/// Whether it is so of each entry.
pub(crate) fn are_turns(threads: u32, entries: Entries<'_>) -> bool
    ensures { result ≡ list_all (is_turn threads) (entries_of entries.entry) }
{
    let mut rest = entries;
    while let Some((entry, after)) = rest.next() {
        if !is_turn(threads, entry) {
            return false;
        }
        rest = after;
    }
    true
}

// The number of the thread of an entry.
fn thread_number(threads: &[Thread], word: ThreadWord<'_>) -> u32
    requires few { length threads.now < 2 ^ 32 }
    requires range { has_range (thread_word word) ≡ true }
    ensures { result ≡ thread_number (names_of threads.now) (thread_word word.entry) }
{
    match word {
        ThreadWord::Numbered(value) => natural(value),
        ThreadWord::Named(name) => place_of(threads, name).unwrap_or(0) as u32,
    }
}

/// The entries as those of a schedule.
pub(crate) fn turns(
    alloc: Global,
    threads: &[Thread],
    entries: Entries<'_>,
) -> Result<Schedule, NoMemory>
    requires few { length threads.now < 2 ^ 32 }
    requires ranges { list_all is_in_range (entries_of entries) ≡ true }
    ensures { IfOk result (λ s. s.items ≡ map (turns_of (names_of threads.now)) (entries_of entries.entry)) }
{
    let mut made = Schedule::new(alloc);
    let mut rest = entries;
    while let Some((entry, after)) = rest.next() {
        made.push(Turns {
            thread: thread_number(threads, entry.thread),
            steps: natural(entry.steps),
        })?;
        rest = after;
    }
    Ok(made)
}
