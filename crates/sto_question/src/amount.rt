//! The amount that a word is.
ghost use Rattle.std.specs.Prelude.{◌≡◌, ◌∷◌, [], map, Option, Some, option_map, position};
ghost use Rattle.std.specs.List.{slice_split};
ghost use Rattle.std.specs.Str.{bytes_eq};
ghost use Rattle.sto_syntax.specs.Words.{is_name, number_of};
ghost use Rattle.sto_lang.specs.Objects.{Declaration};
ghost use Rattle.sto_lang.specs.Views.{declaration};
ghost use Rattle.sto_question.specs.Questions.{holds_one, named, plain_amount, amount_at, keyed_amount, is_opening, is_closing, bracketed_amount, object_amount, number_amount, amount_of};
ghost use Rattle.sto_question.specs.Readings.{known};

use crate::fault::QuestionFault;
use crate::number::{begins_number, number};
use crate::question::Amount;
use sto_lang::Decl;
use sto_model::Shape;
use sto_syntax::Name;

/// An object that is declared: its number, and whether it holds one value and has no keys.
#[derive(Clone, Copy)]
pub(crate) struct KnownObject {
    pub(crate) number: u32,
    pub(crate) holds_one: bool,
}

// Whether an object holds one value, and has no keys.
fn holds_one(shape: &Shape) -> bool
    ensures { result ≡ holds_one shape.now }
{
    matches!(shape, Shape::Single(_) | Shape::Counter(_))
}

// What is asked of an object.
fn known(decl: &Decl) -> KnownObject
    ensures { result ≡ known (declaration decl.now) }
{
    KnownObject {
        number: decl.number,
        holds_one: holds_one(&decl.shape),
    }
}

// The place of the object with a name.
fn place_of(decls: &[Decl], name: &[u8]) -> Option<usize>
    ensures { result ≡ position (λ d. bytes_eq d.name.items name.now) decls.now }
{
    decls.iter().position(|decl| decl.name.as_bytes() == name)
}

// The object with a name.
fn named(decls: &[Decl], name: &[u8]) -> Option<KnownObject>
    ensures { result ≡ option_map known (named (map declaration decls.now) name.now) }
{
    match place_of(decls, name) {
        Some(place) => Some(known(&decls[place])),
        None => None,
    }
}

// The value of an object without a key.
fn plain_amount(object: Option<KnownObject>) -> Result<Amount, QuestionFault>
    ensures { (d : Option Declaration) → object ≡ option_map known d → result ≡ plain_amount d }
{
    match object {
        None => Err(QuestionFault::UnknownName),
        Some(object) if object.holds_one => Ok(Amount::Value {
            object: object.number,
            key: 0,
        }),
        Some(_) => Err(QuestionFault::WrongKind),
    }
}

// The value of an object at a key.
fn amount_at(object: u32, key: Option<i64>) -> Result<Amount, QuestionFault>
    ensures { result ≡ amount_at object key }
{
    match key {
        None => Err(QuestionFault::BadNumber),
        Some(key) => Ok(Amount::Value { object, key }),
    }
}

// The value of an object at the key that a word is.
fn keyed_amount(object: Option<KnownObject>, key: &[u8]) -> Result<Amount, QuestionFault>
    ensures { (d : Option Declaration) → object ≡ option_map known d → result ≡ keyed_amount d key.now }
{
    match object {
        None => Err(QuestionFault::UnknownName),
        Some(object) if object.holds_one => Err(QuestionFault::WrongKind),
        Some(object) => amount_at(object.number, number(key)),
    }
}

// Where the first opening bracket is.
fn opening(word: &[u8]) -> Option<usize>
    ensures { result ≡ position is_opening word.now }
{
    word.iter().position(|b| *b == b'[')
}

// Where the first closing bracket is.
fn closing(word: &[u8]) -> Option<usize>
    ensures { result ≡ position is_closing word.now }
{
    word.iter().position(|b| *b == b']')
}

// The value of the object with a name at the key that stands before a closing bracket.
fn bracketed_amount(decls: &[Decl], name: &[u8], rest: &[u8]) -> Result<Amount, QuestionFault>
    ensures { result ≡ bracketed_amount (map declaration decls.now) name.now (slice_split is_closing rest.now) }
{
    let Some(end) = closing(rest) else {
        return Err(QuestionFault::BadWords);
    };
    if end + 1 != rest.len() {
        return Err(QuestionFault::BadWords);
    }
    keyed_amount(named(decls, name), &rest[..end])
}

// The value that a name and what stands behind an opening bracket tell.
fn with_key(decls: &[Decl], name: &[u8], rest: &[u8]) -> Result<Amount, QuestionFault>
    ensures { result ≡ object_amount (map declaration decls.now) (name.now ∷ rest.now ∷ []) }
{
    match Name::of(name) {
        Some(_) => bracketed_amount(decls, name, rest),
        None => Err(QuestionFault::BadWords),
    }
}

// The same, where no other opening bracket comes.
fn two_pieces(decls: &[Decl], name: &[u8], rest: &[u8]) -> Result<Amount, QuestionFault>
    ensures { result ≡ object_amount (map declaration decls.now) (name.now ∷ slice_split is_opening rest.now) }
{
    match opening(rest) {
        None => with_key(decls, name, rest),
        Some(_) => Err(QuestionFault::BadWords),
    }
}

// The value of the object that a name alone tells.
fn one_piece(decls: &[Decl], name: &[u8]) -> Result<Amount, QuestionFault>
    ensures { result ≡ object_amount (map declaration decls.now) (name.now ∷ []) }
{
    match Name::of(name) {
        Some(_) => plain_amount(named(decls, name)),
        None => Err(QuestionFault::BadWords),
    }
}

// The amount that a word is which is no number.
fn object_amount(decls: &[Decl], word: &[u8]) -> Result<Amount, QuestionFault>
    ensures { result ≡ object_amount (map declaration decls.now) (slice_split is_opening word.now) }
{
    match opening(word) {
        None => one_piece(decls, word),
        Some(end) => two_pieces(decls, &word[..end], &word[end + 1..]),
    }
}

// The amount that a word is which begins as a number.
fn number_amount(value: Option<i64>) -> Result<Amount, QuestionFault>
    ensures { result ≡ number_amount value }
{
    match value {
        None => Err(QuestionFault::BadNumber),
        Some(value) => Ok(Amount::Number(value)),
    }
}

/// The amount that a word is: a number, NAME, or NAME[KEY].
pub(crate) fn amount_of(decls: &[Decl], word: &[u8]) -> Result<Amount, QuestionFault>
    ensures { result ≡ amount_of (map declaration decls.now) word.now }
{
    if begins_number(word) {
        return number_amount(number(word));
    }
    object_amount(decls, word)
}
