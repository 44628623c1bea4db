//! Why words are no question.
ghost use Rattle.std.specs.Prelude.{◌≡◌, Some};
ghost use Rattle.sto_question.specs.FaultTexts.{fault_text, question_error_text};
ghost use Rattle.sto_question.specs.declared.fault.QuestionError.TheVariants.{NoMemory};

use std::alloc::AllocError;
use std::fmt;

/// What is wrong with the words of a question.
#[derive(Clone, Copy, PartialEq, Eq, Debug)]
pub enum QuestionFault {
    /// They are not in the grammar.
    BadWords,
    /// A word in the place of a number is none of 64 bits.
    BadNumber,
    /// No object has this name.
    UnknownName,
    /// A box or a counter has a key, or another object has none.
    WrongKind,
}

impl fmt::Display for QuestionFault {
    ghost output = { λ fault. Some (fault_text fault) };

    fn fmt<W: fmt::Write>(&self, f: &mut fmt::Formatter<W>) -> fmt::Result {
        match self {
            QuestionFault::BadWords => write!(f, "bad words"),
            QuestionFault::BadNumber => write!(f, "bad number"),
            QuestionFault::UnknownName => write!(f, "unknown name"),
            QuestionFault::WrongKind => write!(f, "wrong kind"),
        }
    }
}

/// Why a question was not read.
#[derive(Clone, Copy, PartialEq, Eq, Debug)]
pub enum QuestionError {
    Fault(QuestionFault),
    NoMemory,
}

impl fmt::Display for QuestionError {
    ghost output = { λ error. Some (question_error_text error) };

    fn fmt<W: fmt::Write>(&self, f: &mut fmt::Formatter<W>) -> fmt::Result {
        match self {
            QuestionError::Fault(fault) => write!(f, "{fault}"),
            QuestionError::NoMemory => write!(f, "out of memory"),
        }
    }
}

impl From<sto_part::NoMemory> for QuestionError {
    ghost from_gives = { λ _ e. e ≡ NoMemory };

    fn from(_: sto_part::NoMemory) -> Self {
        QuestionError::NoMemory
    }
}

impl From<AllocError> for QuestionError {
    ghost from_gives = { λ _ e. e ≡ NoMemory };

    fn from(_: AllocError) -> Self {
        QuestionError::NoMemory
    }
}
