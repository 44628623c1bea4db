//! The arguments of a line.
ghost use Rattle.std.specs.Prelude.{◌≡◌, not};
ghost use Rattle.sto_syntax.specs.Lines.{words_of};
ghost use Rattle.sto_syntax.specs.Operations.{kinds_with};
ghost use Rattle.sto_syntax.specs.Forms.{Number, all_of, operand_of, begins_number, is_empty};
ghost use Rattle.sto_syntax.specs.Views.{operand, operand_option, operand_list, few_option, few};
ghost use Rattle.sto_syntax.specs.Words.{number_of};

use crate::word::number;
use crate::{Name, OperationWord, next_word};

/// A word in the place of an argument: a number, one that begins as a number and is none, or the name of a variable.
#[derive(Clone, Copy)]
pub enum Operand<'a> {
    Number(i64),
    BadNumber,
    Variable(Name<'a>),
}

/// The arguments of a call.
#[derive(Clone, Copy)]
pub enum Operands<'a> {
    None,
    One(Operand<'a>),
    Two(Operand<'a>, Operand<'a>),
}

fn begins_number(word: &[u8]) -> bool
    ensures { result ≡ begins_number word.now }
{
    match word {
        [] => false,
        [first, ..] => *first == b'-' || (b'0' <= *first && *first <= b'9'),
    }
}

/// The argument that a word is which begins as a number.
fn number_operand(word: &[u8]) -> Operand<'_>
    ensures { operand result ≡ Number (number_of word.now) }
{
    match number(word) {
        Some(value) => Operand::Number(value),
        None => Operand::BadNumber,
    }
}

/// The argument that a word is.
pub fn operand_of(word: &[u8]) -> Option<Operand<'_>>
    ensures { operand_option result ≡ operand_of word.now }
{
    if begins_number(word) {
        return Some(number_operand(word));
    }
    match Name::of(word) {
        Some(name) => Some(Operand::Variable(name)),
        None => None,
    }
}

/// The arguments that the words are, where they are two at most.
pub fn operands_of(rest: &[u8]) -> Option<Operands<'_>>
    ensures { few_option result ≡ few (all_of operand_of (words_of rest.now)) }
{
    let Some((a, rest)) = next_word(rest) else {
        return Some(Operands::None);
    };
    let a = operand_of(a)?;
    let Some((b, rest)) = next_word(rest) else {
        return Some(Operands::One(a));
    };
    let b = operand_of(b)?;
    match next_word(rest) {
        None => Some(Operands::Two(a, b)),
        Some(_) => None,
    }
}

/// Whether some form of the operation has so many arguments.
pub fn has_form(operation: OperationWord, operands: Operands<'_>) -> bool
    ensures { result ≡ not (is_empty (kinds_with operation (operand_list operands.entry))) }
{
    match (operation, operands) {
        (OperationWord::Get, Operands::None | Operands::One(_)) => true,
        (OperationWord::Len | OperationWord::Pop, Operands::None) => true,
        (OperationWord::Set | OperationWord::Add, Operands::One(_) | Operands::Two(..)) => true,
        (
            OperationWord::Compare(_) | OperationWord::Take | OperationWord::Remove,
            Operands::One(_),
        ) => true,
        (OperationWord::Has | OperationWord::Next | OperationWord::Push, Operands::One(_)) => true,
        (OperationWord::Put | OperationWord::Count | OperationWord::Scan, Operands::Two(..)) =>
            true,
        _ => false,
    }
}
