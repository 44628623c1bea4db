//! The words after the name of a program.
ghost use Rattle.std.specs.Prelude.{◌≡◌};
ghost use Rattle.sto_console.specs.Said.{Says};
ghost use Rattle.sto_console.specs.Statuses.{refusal_status, refusal_line};
ghost use Rattle.sto_console.specs.Words.{refusal_of};

use crate::beside::say_refusal;
use crate::refusal::Refusal;
use crate::stream::Sink;
use std::alloc::Global;
use std::env;
use std::io::ErrorKind;

/// Why the words of a call cannot be read.
#[derive(Clone, Copy, PartialEq, Eq)]
pub enum WordsError {
    /// A word is not UTF-8.
    NotText,
    NoMemory,
}

/// The words after the program's name.
pub fn words_of(rt: &HostRuntime) -> Result<Vec<String>, WordsError> {
    let args = match env::args(rt) {
        Ok(args) => args,
        Err(error) if error.kind() == ErrorKind::InvalidData => return Err(WordsError::NotText),
        Err(_) => return Err(WordsError::NoMemory),
    };
    let mut words = Vec::new(rt.alloc());
    for word in args.skip(1) {
        if words.push(word).is_err() {
            return Err(WordsError::NoMemory);
        }
    }
    Ok(words)
}

/// Says beside why the words cannot be read, and gives the exit status: 2 where one of them is not
/// UTF-8, since such a word is in no grammar, and 6 for want of memory.
pub fn refuse_words<E: Sink>(alloc: Global, fault: WordsError, diag: &mut E) -> u8
    ensures status { result ≡ refusal_status (refusal_of fault) }
    ensures says { Says (refusal_line (refusal_of fault)) (E.held diag.old) (E.held diag.new) (E.faults diag.old) (E.faults diag.new) }
{
    let refusal = match fault {
        WordsError::NotText => Refusal::Usage,
        WordsError::NoMemory => Refusal::NoMemory,
    };
    say_refusal(alloc, diag, refusal).status()
}
