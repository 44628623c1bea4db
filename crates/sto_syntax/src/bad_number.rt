//! Words in the place of numbers that are none.
ghost use Rattle.std.specs.Prelude.{◌≡◌};
ghost use Rattle.std.specs.List.{list_all};
ghost use Rattle.sto_syntax.specs.Numbers.{has_numbers, is_good, has_bad_number};
ghost use Rattle.sto_syntax.specs.Views.{operand, operand_list, form};

use crate::{Declared, Form, Operand, Operands};

fn has_numbers(declared: &Declared) -> bool
    ensures { result ≡ has_numbers declared.now }
{
    match declared {
        Declared::Box { value } | Declared::Counter { value } => value.is_some(),
        Declared::Array { len, value } => len.is_some() && value.is_some(),
        Declared::Hash { buckets, places } => buckets.is_some() && places.is_some(),
        Declared::Tree { leaves } => leaves.is_some(),
        Declared::Vector { capacity } => capacity.is_some(),
    }
}

fn is_good(argument: Operand<'_>) -> bool
    ensures { result ≡ is_good (operand argument.entry) }
{
    match argument {
        Operand::Number(_) | Operand::Variable(_) => true,
        Operand::BadNumber => false,
    }
}

fn are_good(operands: Operands<'_>) -> bool
    ensures { result ≡ list_all is_good (operand_list operands.entry) }
{
    match operands {
        Operands::None => true,
        Operands::One(a) => is_good(a),
        Operands::Two(a, b) => is_good(a) && is_good(b),
    }
}

impl Form<'_> {
    /// Whether a word in the place of a number, or one that begins as a number in the place of an
    /// argument, or a part of an entry, is no number.
    pub fn has_bad_number(&self) -> bool
        ensures { result ≡ has_bad_number (form self.now) }
    {
        match self {
            Form::Declare { declared, .. } => !has_numbers(declared),
            Form::Call { operands, .. } => !are_good(*operands),
            Form::Sum { a, b, .. } | Form::Diff { a, b, .. } => !(is_good(*a) && is_good(*b)),
            Form::If { a, b, .. } => !(is_good(*a) && is_good(*b)),
            Form::Version { version } => version.is_none(),
            Form::Repeat { times } => times.is_none(),
            Form::Schedule { entries } => !entries.are_numbers(),
            _ => false,
        }
    }
}
