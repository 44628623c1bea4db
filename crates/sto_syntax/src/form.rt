//! The forms of a line.
ghost use Rattle.std.specs.Prelude.{◌≡◌, ◌^◌, ◌<◌, ◌∷◌, ℕ, List, Option, None, length, MatchOption, true};
ghost use Rattle.sto_syntax.specs.Lines.{words_of};
ghost use Rattle.sto_syntax.specs.Forms.{ThreadLine, BeginLine, ElseLine, EndLine, CancelLine, CommitLine, box_line, counter_line, array_line, hash_line, tree_line, vector_line, alone, call, call_line, sum_line, diff_line, if_line, repeat_line, version_line, named_line, thread_line, assignment, acting, form_of, all_of, entry_of, schedule_line, statement};
ghost use Rattle.sto_syntax.specs.Views.{form, form_option, name_option};

use crate::entries::Entries;
use crate::line::is_blank;
use crate::operand::{has_form, operand_of, operands_of};
use crate::operation::{operation_of, test_of};
use crate::word::number;
use crate::{Declared, Name, Operand, Operands, OperationWord, next_word};
use sto_part::Test;

/// A line that has a form.
#[derive(Clone, Copy)]
pub enum Form<'a> {
    Declare {
        name: Name<'a>,
        declared: Declared,
    },
    /// `sto` and its number.
    Version {
        version: Option<i64>,
    },
    /// A thread, in version 2 with its name.
    Thread {
        name: Option<Name<'a>>,
    },
    Begin,
    Call {
        to: Option<Name<'a>>,
        operation: OperationWord,
        object: Name<'a>,
        operands: Operands<'a>,
    },
    Sum {
        to: Name<'a>,
        a: Operand<'a>,
        b: Operand<'a>,
    },
    Diff {
        to: Name<'a>,
        a: Operand<'a>,
        b: Operand<'a>,
    },
    If {
        a: Operand<'a>,
        test: Test,
        b: Operand<'a>,
    },
    Else,
    Repeat {
        times: Option<i64>,
    },
    End,
    Cancel,
    Commit,
    Schedule {
        entries: Entries<'a>,
    },
}

fn box_line(rest: &[u8]) -> Option<Form<'_>>
    ensures { form_option result ≡ box_line (words_of rest.now) }
{
    let (name, rest) = next_word(rest)?;
    let (value, rest) = next_word(rest)?;
    let declared = Declared::Box {
        value: number(value),
    };
    match (Name::of(name), next_word(rest)) {
        (Some(name), None) => Some(Form::Declare { name, declared }),
        _ => None,
    }
}

fn counter_line(rest: &[u8]) -> Option<Form<'_>>
    ensures { form_option result ≡ counter_line (words_of rest.now) }
{
    let (name, rest) = next_word(rest)?;
    let (value, rest) = next_word(rest)?;
    let declared = Declared::Counter {
        value: number(value),
    };
    match (Name::of(name), next_word(rest)) {
        (Some(name), None) => Some(Form::Declare { name, declared }),
        _ => None,
    }
}

fn array_line(rest: &[u8]) -> Option<Form<'_>>
    ensures { form_option result ≡ array_line (words_of rest.now) }
{
    let (name, rest) = next_word(rest)?;
    let (len, rest) = next_word(rest)?;
    let (value, rest) = next_word(rest)?;
    let declared = Declared::Array {
        len: number(len),
        value: number(value),
    };
    match (Name::of(name), next_word(rest)) {
        (Some(name), None) => Some(Form::Declare { name, declared }),
        _ => None,
    }
}

fn hash_line(rest: &[u8]) -> Option<Form<'_>>
    ensures { form_option result ≡ hash_line (words_of rest.now) }
{
    let (name, rest) = next_word(rest)?;
    let (buckets, rest) = next_word(rest)?;
    let (places, rest) = next_word(rest)?;
    let declared = Declared::Hash {
        buckets: number(buckets),
        places: number(places),
    };
    match (Name::of(name), next_word(rest)) {
        (Some(name), None) => Some(Form::Declare { name, declared }),
        _ => None,
    }
}

fn tree_line(rest: &[u8]) -> Option<Form<'_>>
    ensures { form_option result ≡ tree_line (words_of rest.now) }
{
    let (name, rest) = next_word(rest)?;
    let (leaves, rest) = next_word(rest)?;
    let declared = Declared::Tree {
        leaves: number(leaves),
    };
    match (Name::of(name), next_word(rest)) {
        (Some(name), None) => Some(Form::Declare { name, declared }),
        _ => None,
    }
}

/// A vector is declared in version 2 alone.
fn vector_line(version: u32, rest: &[u8]) -> Option<Form<'_>>
    ensures { form_option result ≡ vector_line version (words_of rest.now) }
{
    let (name, rest) = next_word(rest)?;
    let (capacity, rest) = next_word(rest)?;
    let declared = Declared::Vector {
        capacity: number(capacity),
    };
    match (Name::of(name), next_word(rest)) {
        (Some(name), None) if version == 2 => Some(Form::Declare { name, declared }),
        _ => None,
    }
}

fn begin_line(rest: &[u8]) -> Option<Form<'_>>
    ensures { form_option result ≡ alone BeginLine (words_of rest.now) }
{
    match next_word(rest) {
        None => Some(Form::Begin),
        Some(_) => None,
    }
}

fn else_line(rest: &[u8]) -> Option<Form<'_>>
    ensures { form_option result ≡ alone ElseLine (words_of rest.now) }
{
    match next_word(rest) {
        None => Some(Form::Else),
        Some(_) => None,
    }
}

fn end_line(rest: &[u8]) -> Option<Form<'_>>
    ensures { form_option result ≡ alone EndLine (words_of rest.now) }
{
    match next_word(rest) {
        None => Some(Form::End),
        Some(_) => None,
    }
}

fn cancel_line(rest: &[u8]) -> Option<Form<'_>>
    ensures { form_option result ≡ alone CancelLine (words_of rest.now) }
{
    match next_word(rest) {
        None => Some(Form::Cancel),
        Some(_) => None,
    }
}

fn commit_line(rest: &[u8]) -> Option<Form<'_>>
    ensures { form_option result ≡ alone CommitLine (words_of rest.now) }
{
    match next_word(rest) {
        None => Some(Form::Commit),
        Some(_) => None,
    }
}

fn unnamed_line(rest: &[u8]) -> Option<Form<'_>>
    ensures { form_option result ≡ alone (ThreadLine None) (words_of rest.now) }
{
    match next_word(rest) {
        None => Some(Form::Thread { name: None }),
        Some(_) => None,
    }
}

/// The operation of a call by its word and what follows its object, and the words of its arguments.
fn operation_in<'a>(version: u32, word: &[u8], rest: &'a [u8]) -> Option<(OperationWord, &'a [u8])>
    ensures { (to : Option (List ℕ)) (object : List ℕ) → MatchOption result (call_line version to word.now (object ∷ words_of rest.now)
        ≡ None) (λ found. call_line version to word.now (object ∷ words_of rest.now) ≡ call to object (words_of found.1.now) found.0) }
{
    if word == b"test".as_slice() {
        let (test, rest) = next_word(rest)?;
        let test = test_of(test)?;
        return Some((OperationWord::Compare(test), rest));
    }
    let operation = operation_of(version, word)?;
    Some((operation, rest))
}

fn call_line<'a>(
    version: u32,
    to: Option<Name<'a>>,
    word: &[u8],
    rest: &'a [u8],
) -> Option<Form<'a>>
    ensures { form_option result ≡ call_line version (name_option to.entry) word.now (words_of rest.now) }
{
    let (object, rest) = next_word(rest)?;
    let (operation, rest) = operation_in(version, word, rest)?;
    let operands = operands_of(rest)?;
    let object = Name::of(object)?;
    if !has_form(operation, operands) {
        return None;
    }
    Some(Form::Call {
        to,
        operation,
        object,
        operands,
    })
}

fn sum_line<'a>(to: Name<'a>, rest: &'a [u8]) -> Option<Form<'a>>
    ensures { form_option result ≡ sum_line to.entry.bytes.now (words_of rest.now) }
{
    let (a, rest) = next_word(rest)?;
    let (b, rest) = next_word(rest)?;
    match (operand_of(a), operand_of(b), next_word(rest)) {
        (Some(a), Some(b), None) => Some(Form::Sum { to, a, b }),
        _ => None,
    }
}

fn diff_line<'a>(to: Name<'a>, rest: &'a [u8]) -> Option<Form<'a>>
    ensures { form_option result ≡ diff_line to.entry.bytes.now (words_of rest.now) }
{
    let (a, rest) = next_word(rest)?;
    let (b, rest) = next_word(rest)?;
    match (operand_of(a), operand_of(b), next_word(rest)) {
        (Some(a), Some(b), None) => Some(Form::Diff { to, a, b }),
        _ => None,
    }
}

fn if_line(rest: &[u8]) -> Option<Form<'_>>
    ensures { form_option result ≡ if_line (words_of rest.now) }
{
    let (a, rest) = next_word(rest)?;
    let (test, rest) = next_word(rest)?;
    let (b, rest) = next_word(rest)?;
    match (operand_of(a), test_of(test), operand_of(b), next_word(rest)) {
        (Some(a), Some(test), Some(b), None) => Some(Form::If { a, test, b }),
        _ => None,
    }
}

fn repeat_line(rest: &[u8]) -> Option<Form<'_>>
    ensures { form_option result ≡ repeat_line (words_of rest.now) }
{
    let (times, rest) = next_word(rest)?;
    match next_word(rest) {
        None => Some(Form::Repeat {
            times: number(times),
        }),
        Some(_) => None,
    }
}

fn schedule_line(version: u32, rest: &[u8]) -> Option<Form<'_>>
    requires { length rest.now < 2 ^ 32 }
    ensures { form_option result ≡ schedule_line version (words_of rest.now) }
{
    next_word(rest)?;
    let entries = Entries::of(version, rest)?;
    Some(Form::Schedule { entries })
}

fn version_line(rest: &[u8]) -> Option<Form<'_>>
    ensures { form_option result ≡ version_line (words_of rest.now) }
{
    let (version, rest) = next_word(rest)?;
    match next_word(rest) {
        None => Some(Form::Version {
            version: number(version),
        }),
        Some(_) => None,
    }
}

fn named_line(rest: &[u8]) -> Option<Form<'_>>
    ensures { form_option result ≡ named_line (words_of rest.now) }
{
    let (name, rest) = next_word(rest)?;
    match (Name::of(name), next_word(rest)) {
        (Some(name), None) => Some(Form::Thread { name: Some(name) }),
        _ => None,
    }
}

/// In version 2 a thread has its name on its line.
fn thread_line(version: u32, rest: &[u8]) -> Option<Form<'_>>
    ensures { form_option result ≡ thread_line version (words_of rest.now) }
{
    if version == 2 {
        return named_line(rest);
    }
    unnamed_line(rest)
}

fn assignment<'a>(version: u32, to: &'a [u8], rest: &'a [u8]) -> Option<Form<'a>>
    ensures { form_option result ≡ assignment version to.now (words_of rest.now) }
{
    let (word, rest) = next_word(rest)?;
    let to = Name::of(to)?;
    if word == b"sum".as_slice() {
        return sum_line(to, rest);
    }
    if word == b"diff".as_slice() {
        return diff_line(to, rest);
    }
    call_line(version, Some(to), word, rest)
}

fn acting<'a>(version: u32, word: &[u8], rest: &'a [u8]) -> Option<Form<'a>>
    ensures { form_option result ≡ acting version word.now (words_of rest.now) }
{
    if word == b"if".as_slice() {
        return if_line(rest);
    }
    if word == b"else".as_slice() {
        return else_line(rest);
    }
    if word == b"repeat".as_slice() {
        return repeat_line(rest);
    }
    if word == b"end".as_slice() {
        return end_line(rest);
    }
    if word == b"cancel".as_slice() {
        return cancel_line(rest);
    }
    if word == b"commit".as_slice() {
        return commit_line(rest);
    }
    call_line(version, None, word, rest)
}

fn statement<'a>(version: u32, word: &[u8], rest: &'a [u8]) -> Option<Form<'a>>
    requires { length rest.now < 2 ^ 32 }
    ensures { form_option result ≡ statement version word.now (words_of rest.now) }
{
    if word == b"sto".as_slice() {
        return version_line(rest);
    }
    if word == b"box".as_slice() {
        return box_line(rest);
    }
    if word == b"counter".as_slice() {
        return counter_line(rest);
    }
    if word == b"array".as_slice() {
        return array_line(rest);
    }
    if word == b"hash".as_slice() {
        return hash_line(rest);
    }
    if word == b"tree".as_slice() {
        return tree_line(rest);
    }
    if word == b"vector".as_slice() {
        return vector_line(version, rest);
    }
    if word == b"thread".as_slice() {
        return thread_line(version, rest);
    }
    if word == b"begin".as_slice() {
        return begin_line(rest);
    }
    if word == b"schedule".as_slice() {
        return schedule_line(version, rest);
    }
    acting(version, word, rest)
}

/// What follows the `=` of an assignment, by what follows its first word. Most lines have another byte in that place.
fn after_equals(rest: &[u8]) -> Option<&[u8]>
    ensures { (version : ℕ) (word : List ℕ) → MatchOption result (form_of version word (words_of rest.now)
        ≡ statement version word (words_of rest.now)) (λ after. form_of version word (words_of rest.now)
        ≡ assignment version word (words_of after.now)) }
{
    if begins_otherwise(rest) {
        return None;
    }
    let (second, after) = next_word(rest)?;
    if second == b"=".as_slice() {
        return Some(after);
    }
    None
}

/// Whether the first byte is that of a word which is not `=`.
fn begins_otherwise(rest: &[u8]) -> bool
    ensures { result ≡ true → (version : ℕ) (word : List ℕ) → form_of version word (words_of rest.now)
        ≡ statement version word (words_of rest.now) }
{
    match rest {
        [first, ..] => *first != b'=' && !is_blank(*first),
        [] => false,
    }
}

/// The form of a line of a script of this version, by its first word and what follows it.
pub fn form_of<'a>(version: u32, word: &'a [u8], rest: &'a [u8]) -> Option<Form<'a>>
    requires { length rest.now < 2 ^ 32 }
    ensures { form_option result ≡ form_of version word.now (words_of rest.now) }
{
    if let Some(after) = after_equals(rest) {
        return assignment(version, word, after);
    }
    statement(version, word, rest)
}
