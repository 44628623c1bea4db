//! What the other two programs over the library are asked: the checker of reports and the feed. Their words are options alone.
ghost use Rattle.std.specs.Prelude.{◌≡◌, ◌≤◌, IfOk, IfSome, map, string_bytes, false};
ghost use Rattle.std.specs.List.{list_any};
ghost use Rattle.std.specs.Option.{option_and_then, option_map};
ghost use Rattle.sto_args.specs.Given.{given_by, is_refused};
ghost use Rattle.sto_args.specs.Commands.{HasThreads};
ghost use Rattle.sto_args.specs.Asked.{check_takes, check_of, checking_of, checking_in, feed_takes, feed_of, feeding_of, feeding_in, HasTries, HasNumbers};

use crate::command::{threads, tries};
use crate::grammar::{check_grammar, feed_grammar, matches_in};
use crate::word::{has_refused, texts_of};
use std::alloc::Global;
use sto_part::NoMemory;

/// What the checker of reports is asked: whether a report is lawful for a script and so many tries of each transaction.
#[derive(Clone, Copy, PartialEq, Eq)]
pub struct Checking {
    pub tries: u32,
}

/// What the feed is asked: to run a script on so many threads, with so many tries of each transaction. Where no number of
/// threads is given, the script says it.
#[derive(Clone, Copy, PartialEq, Eq)]
pub struct Feeding {
    pub threads: Option<u32>,
    pub tries: u32,
}

/// What the checker is asked by words none of which is refused.
pub(crate) fn checking_from(alloc: Global, words: &[&str]) -> Result<Option<Checking>, NoMemory>
    requires { list_any is_refused (map (λ word. word.now) words.now) ≡ false }
    ensures range { IfOk result (λ c. IfSome c HasTries) }
    ensures asked { IfOk result (λ c. c ≡ option_and_then check_of (given_by check_takes (map (λ word. word.now) words.now))) }
{
    let Ok(grammar) = check_grammar(alloc) else {
        return Err(NoMemory);
    };
    let Some(matches) = matches_in(grammar, words)? else {
        return Ok(None);
    };
    let Some(tries) = tries(matches.get_str("tries")) else {
        return Ok(None);
    };
    Ok(Some(Checking { tries }))
}

/// What the feed is asked by words none of which is refused.
fn feeding_from(alloc: Global, words: &[&str]) -> Result<Option<Feeding>, NoMemory>
    requires { list_any is_refused (map (λ word. word.now) words.now) ≡ false }
    ensures range { IfOk result (λ f. IfSome f HasNumbers) }
    ensures asked { IfOk result (λ f. f ≡ option_and_then feed_of (given_by feed_takes (map (λ word. word.now) words.now))) }
{
    let Ok(grammar) = feed_grammar(alloc) else {
        return Err(NoMemory);
    };
    let Some(matches) = matches_in(grammar, words)? else {
        return Ok(None);
    };
    let Some(threads) = threads(matches.get_str("threads")) else {
        return Ok(None);
    };
    let Some(tries) = tries(matches.get_str("tries")) else {
        return Ok(None);
    };
    Ok(Some(Feeding { threads, tries }))
}

/// What the checker of reports is asked by the words after its name, `[--tries N]`: the tries are 1 to 64, and 64 where none
/// are given. `None` comes exactly where the words are not in this grammar. Options and numbers are written as for
/// [`find_command`](crate::find_command).
pub fn find_checking(alloc: Global, words: &[String]) -> Result<Option<Checking>, NoMemory>
    ensures range { IfOk result (λ c. IfSome c HasTries) }
    ensures asked { IfOk result (λ c. c ≡ checking_in words.now) }
{
    let texts = texts_of(alloc, words)?;
    if has_refused(texts.as_slice()) {
        return Ok(None);
    }
    checking_from(alloc, texts.as_slice())
}

/// What the feed is asked by the words after its name, `[--threads N] [--tries N]`: the threads are 1 to 16, and the tries as
/// for [`find_checking`]. `None` comes exactly where the words are not in this grammar.
pub fn find_feeding(alloc: Global, words: &[String]) -> Result<Option<Feeding>, NoMemory>
    ensures range { IfOk result (λ f. IfSome f HasNumbers) }
    ensures asked { IfOk result (λ f. f ≡ feeding_in words.now) }
{
    let texts = texts_of(alloc, words)?;
    if has_refused(texts.as_slice()) {
        return Ok(None);
    }
    feeding_from(alloc, texts.as_slice())
}
