//! Names in a script.
ghost use Rattle.std.specs.Prelude.{◌≡◌, ◌≤◌, true, length, MatchOption, false, IfSome};
ghost use Rattle.std.specs.Str.{IsAscii};
ghost use Rattle.sto_syntax.specs.Words.{is_name};

use crate::word::is_name;

/// A word that is a name.
#[derive(Clone, Copy)]
pub struct Name<'a> {
    bytes: &'a [u8],
    ghost valid: { is_name bytes.now ≡ true },
}

impl<'a> Name<'a> {
    /// The word, where it is a name.
    pub fn of(word: &'a [u8]) -> Option<Name<'a>>
        ensures { MatchOption result (is_name word.now ≡ false) (λ name. (is_name word.now ≡ true) × (name.bytes.now ≡ word.now)) }
    {
        if is_name(word) {
            Some(Name { bytes: word })
        } else {
            None
        }
    }

    /// The name as text, which is ASCII.
    pub fn text(&self) -> &'a str
        ensures same { result.now ≡ self.now.bytes.now }
        ensures ascii { IsAscii result.now }
    {
        match str::from_utf8(self.bytes) {
            Ok(text) => text,
            Err(_) => unreachable!(),
        }
    }

    /// The name as bytes.
    pub fn bytes(&self) -> &'a [u8]
        ensures { result.now ≡ self.now.bytes.now }
    {
        self.bytes
    }
}
