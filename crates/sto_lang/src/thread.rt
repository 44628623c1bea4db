//! The names of threads.
ghost use Rattle.std.specs.Prelude.{◌≡◌, ◌^◌, ◌<◌, length, position, is_some, IfOk, true};
ghost use Rattle.std.specs.Str.{bytes_eq};
ghost use Rattle.sto_syntax.specs.Views.{name_option, thread_word};
ghost use Rattle.sto_lang.specs.Drafts.{numbered_name, name_or, thread_number};
ghost use Rattle.sto_lang.specs.Uses.{is_known_thread};
ghost use Rattle.sto_lang.specs.Limits.{has_range};
ghost use Rattle.sto_lang.specs.Views.{names_of};

use crate::range::natural;
use crate::{Text, Thread};
use itoa::Buffer;
use std::alloc::Global;
use sto_part::NoMemory;
use sto_syntax::{Name, ThreadWord};

/// The name that the thread with a number has in version 1: `t0`, `t1` and so on.
pub fn numbered_name(alloc: Global, number: u32) -> Result<Text, NoMemory>
    ensures { IfOk result (λ t. t.items ≡ numbered_name number) }
{
    let mut name = Text::of(alloc, "t")?;
    let mut buffer = Buffer::new();
    name.append(buffer.format(number))?;
    Ok(name)
}

/// The name of a thread that has so many before it.
pub(crate) fn name_or(alloc: Global, name: Option<Name<'_>>, number: u32) -> Result<Text, NoMemory>
    ensures { IfOk result (λ t. t.items ≡ name_or (name_option name.entry) number) }
{
    match name {
        None => numbered_name(alloc, number),
        Some(name) => Text::of(alloc, name.text()),
    }
}

/// The number of the thread with a name.
fn place_of(threads: &[Thread], name: Name<'_>) -> Option<usize>
    ensures { result ≡ position (bytes_eq name.entry.bytes.now) (names_of threads.now) }
{
    thread_at(threads, name)
}

/// Where the first thread with a name is.
fn thread_at(threads: &[Thread], name: Name<'_>) -> Option<usize>
    ensures { result ≡ position (λ t. bytes_eq name.entry.bytes.now t.name.items) threads.now }
{
    let wanted = name.bytes();
    threads
        .iter()
        .position(|thread| wanted == thread.name.as_bytes())
}

/// Whether a thread has this name.
pub(crate) fn is_thread(threads: &[Thread], name: Name<'_>) -> bool
    ensures { result ≡ is_some (position (bytes_eq name.entry.bytes.now) (names_of threads.now)) }
{
    place_of(threads, name).is_some()
}

/// Whether the word of a thread is a number, or the name of one.
pub(crate) fn is_known_thread(threads: &[Thread], word: ThreadWord<'_>) -> bool
    ensures { result ≡ is_known_thread (names_of threads.now) (thread_word word.entry) }
{
    match word {
        ThreadWord::Numbered(_) => true,
        ThreadWord::Named(name) => is_thread(threads, name),
    }
}

/// The number of the thread of an entry.
pub(crate) fn thread_number(threads: &[Thread], word: ThreadWord<'_>) -> u32
    requires few { length threads.now < 2 ^ 32 }
    requires range { has_range (thread_word word) ≡ true }
    ensures { result ≡ thread_number (names_of threads.now) (thread_word word.entry) }
{
    match word {
        ThreadWord::Numbered(value) => natural(value),
        ThreadWord::Named(name) => place_of(threads, name).unwrap_or(0) as u32,
    }
}
