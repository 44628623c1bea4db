//! Numbers in words.
ghost use Rattle.std.specs.Prelude.{◌≡◌};
ghost use Rattle.sto_syntax.specs.Forms.{begins_number};
ghost use Rattle.sto_syntax.specs.Words.{number_of};

use itoa::Buffer;
use std::str;

/// Whether a word begins as a number does.
pub(crate) fn begins_number(word: &[u8]) -> bool
    ensures { result ≡ begins_number word.now }
{
    match word {
        [] => false,
        [first, ..] => *first == b'-' || (b'0' <= *first && *first <= b'9'),
    }
}

/// The number of 64 bits that a word is.
pub(crate) fn number(word: &[u8]) -> Option<i64>
    ensures { result ≡ number_of word.now }
{
    let Ok(text) = str::from_utf8(word) else {
        return None;
    };
    let Ok(value) = text.parse::<i64>() else {
        return None;
    };
    let mut buffer = Buffer::new();
    if buffer.format(value).as_bytes() == word {
        Some(value)
    } else {
        None
    }
}
