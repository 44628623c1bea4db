//! How errors print themselves.
ghost use Rattle.std.specs.Prelude.{Some};
ghost use Rattle.sto_console.specs.ErrorTexts.{words_error_text, read_all_error_text};

use crate::whole::ReadAllError;
use crate::words::WordsError;
use std::fmt;

impl fmt::Display for WordsError {
    ghost output = { λ error. Some (words_error_text error) };

    fn fmt<W: fmt::Write>(&self, f: &mut fmt::Formatter<W>) -> fmt::Result {
        match self {
            WordsError::NotText => write!(f, "a word is no text"),
            WordsError::NoMemory => write!(f, "out of memory"),
        }
    }
}

impl fmt::Display for ReadAllError {
    ghost output = { λ error. Some (read_all_error_text error) };

    fn fmt<W: fmt::Write>(&self, f: &mut fmt::Formatter<W>) -> fmt::Result {
        match self {
            ReadAllError::Fault => write!(f, "the input cannot be read"),
            ReadAllError::NoMemory => write!(f, "out of memory"),
        }
    }
}
