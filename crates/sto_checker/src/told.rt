//! What abort lines tell.
ghost use Rattle.std.specs.Prelude.{◌≡◌, ◌≢◌, ℕ, List, [], ◌∷◌, ◌+◌, ◌<◌, ◌≤◌, ◌^◌, length, MatchOption, IfSome, Some};
ghost use Rattle.std.specs.List.{slice_split};
ghost use Rattle.sto_lang.specs.Views.{names_of};
ghost use Rattle.sto_report_spec.specs.Aborts.{Abort};
ghost use Rattle.sto_report_spec.specs.Named.{is_space};
ghost use Rattle.sto_report_spec.specs.NamedAborts.{Heard, locked_in, changed_in, heard_in, aborts_in};
ghost use Rattle.sto_checker.specs.Reading.{IsSmallCause, IsSmall, IsOnlyCause, IsHeardRead, IsAbortRead, HasHead, known_of};

use crate::transaction::{TransactionPlace, transaction_in};
use crate::word::{first_piece, number};
use sto_lang::Thread;

/// The part that a cause names, and the writer, where one changed it.
#[derive(Clone, Copy)]
pub struct ToldCause<'a> {
    pub object: &'a [u8],
    pub part: u32,
    pub by: Option<u32>,
}

/// An aborted attempt: its transaction, how many writers it saw, how many replies it heard, and the cause.
#[derive(Clone, Copy)]
pub struct ToldAbort<'a> {
    pub place: TransactionPlace,
    pub seen: u32,
    pub heard: u32,
    pub cause: ToldCause<'a>,
}

impl ToldAbort<'_> {
    /// How many writers the attempt knew of at its end: the one that changed the part, or those that it saw.
    pub fn known_at_end(&self) -> u32
        ensures { result ≡ known_of self.now.cause.by self.now.seen }
    {
        match self.cause.by {
            Some(by) => by,
            None => self.seen,
        }
    }
}

// What stands after `locked`.
fn locked_in(words: &[u8]) -> Option<ToldCause<'_>>
    ensures { (h : Heard) → locked_in (slice_split is_space words.now) ≡ Some h → IsSmallCause h.cause → IsOnlyCause h result }
{
    let (object, after) = first_piece(words, b' ');
    let (part, more) = first_piece(after?, b' ');
    if let Some(_) = more {
        return None;
    }
    let part = number(part)?;
    Some(ToldCause {
        object,
        part,
        by: None,
    })
}

// What stands after `changed`.
fn changed_in(words: &[u8]) -> Option<ToldCause<'_>>
    ensures { (h : Heard) → changed_in (slice_split is_space words.now) ≡ Some h → IsSmallCause h.cause → IsOnlyCause h result }
{
    let (object, after) = first_piece(words, b' ');
    let (part, after) = first_piece(after?, b' ');
    let (_, after) = first_piece(after?, b' ');
    let (by, more) = first_piece(after?, b' ');
    if let Some(_) = more {
        return None;
    }
    let part = number(part)?;
    let by = number(by)?;
    Some(ToldCause {
        object,
        part,
        by: Some(by),
    })
}

/// How many replies stand before the word of a cause, and the cause, where its numbers are below 2^32.
///
/// It is asked of the words of an abort line behind `saw`. The replies themselves are not read.
pub fn heard_in(words: &[u8]) -> Option<(u32, ToldCause<'_>)>
    requires { length words.now < 2 ^ 32 }
    ensures { (h : Heard) → heard_in (slice_split is_space words.now) ≡ Some h → IsSmallCause h.cause → IsHeardRead h result }
{
    let mut rest = words;
    let mut heard: u32 = 0;
    loop {
        let (word, after) = first_piece(rest, b' ');
        if word == b"locked".as_slice() {
            let cause = locked_in(after?)?;
            return Some((heard, cause));
        }
        if word == b"changed".as_slice() {
            let cause = changed_in(after?)?;
            return Some((heard, cause));
        }
        rest = after?;
        heard += 1;
    }
}
