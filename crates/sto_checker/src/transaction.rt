//! The transactions that lines name.
ghost use Rattle.std.specs.Prelude.{◌≡◌, ◌<◌, ◌^◌, length, position};
ghost use Rattle.std.specs.List.{slice_split};
ghost use Rattle.std.specs.Str.{bytes_eq};
ghost use Rattle.sto_lang.specs.Views.{names_of};
ghost use Rattle.sto_report_spec.specs.Named.{is_space, is_dot, is_digit, place_of_pieces, named_in};
ghost use Rattle.sto_checker.specs.Reading.{IsReadAs, begins_with_digit};

use crate::word::{first_piece, number};
use sto_lang::Thread;

/// A transaction: the number of its thread, from 0, and its position, from 1.
#[derive(Clone, Copy, PartialEq, Eq)]
pub struct TransactionPlace {
    pub thread: u32,
    pub position: u32,
}

// Where the thread with a name stands.
fn thread_named(threads: &[Thread], name: &[u8]) -> Option<usize>
    ensures { result ≡ position (λ thread. bytes_eq name.now thread.name.items) threads.now }
{
    threads
        .iter()
        .position(|thread| name == thread.name.as_bytes())
}

// The same by the names of threads.
#[tactic(auto, using(crate::proofs::ThreadNames::position_named))]
fn place_named(threads: &[Thread], name: &[u8]) -> Option<usize>
    ensures { result ≡ position (bytes_eq name.now) (names_of threads.now) }
{
    thread_named(threads, name)
}

/// The transaction that a word `NAME.J` names, where J is below 2^32.
pub fn transaction_in(threads: &[Thread], word: &[u8]) -> Option<TransactionPlace>
    requires { length threads.now < 2 ^ 32 }
    ensures { IsReadAs (place_of_pieces (names_of threads.now) (slice_split is_dot word.now)) result }
{
    let (name, after) = first_piece(word, b'.');
    let (digits, more) = first_piece(after?, b'.');
    if let Some(_) = more {
        return None;
    }
    let thread = place_named(threads, name)?;
    let position = number(digits)?;
    Some(TransactionPlace {
        thread: thread as u32,
        position,
    })
}

fn begins_with_digit(word: &[u8]) -> bool
    ensures { result ≡ begins_with_digit word.now }
{
    match word {
        [first, ..] => b'0' <= *first && *first <= b'9',
        [] => false,
    }
}

/// The transaction that a journal line names by its second word, where the position is below 2^32.
pub fn journal_transaction(threads: &[Thread], content: &[u8]) -> Option<TransactionPlace>
    requires { length threads.now < 2 ^ 32 }
    ensures { IsReadAs (named_in (names_of threads.now) (slice_split is_space content.now)) result }
{
    let (first, after) = first_piece(content, b' ');
    let (word, _) = first_piece(after?, b' ');
    if !begins_with_digit(first) {
        return None;
    }
    transaction_in(threads, word)
}
