//! What a word is.
ghost use Rattle.std.specs.Prelude.{◌≡◌, ◌∷◌, IfSome, Some};
ghost use Rattle.std.specs.List.{list_all};
ghost use Rattle.std.specs.Str.Parse.{AllDigits, digits_value};
ghost use Rattle.sto_syntax.specs.Words.{is_letter, is_name_byte, is_name, number_of, IsNatural};

use itoa::Buffer;

fn is_letter(byte: u8) -> bool
    ensures { result ≡ is_letter byte }
{
    b'a' <= byte && byte <= b'z'
}

fn is_name_byte(byte: u8) -> bool
    ensures { result ≡ is_name_byte byte }
{
    is_letter(byte) || (b'0' <= byte && byte <= b'9') || byte == b'_'
}

fn all_name_bytes(bytes: &[u8]) -> bool
    ensures { result ≡ list_all is_name_byte bytes.now }
{
    bytes.iter().all(|b| is_name_byte(*b))
}

/// Whether a word is a name.
pub fn is_name(word: &[u8]) -> bool
    ensures { result ≡ is_name word.now }
{
    match word {
        [] => false,
        [first, rest @ ..] => is_letter(*first) && all_name_bytes(rest) && rest.len() < 32,
    }
}

/// The number that digits write, where it is small. None says nothing.
fn small_value(word: &[u8]) -> Option<u32>
    ensures { IfSome result (λ n. AllDigits 10 word.now × (digits_value 10 word.now ≡ n)) }
{
    let mut value: u32 = 0;
    let mut rest = word;
    while let [first, after @ ..] = rest {
        if *first < b'0' || b'9' < *first || 400_000_000 <= value {
            return None;
        }
        value = value * 10 + u32::from(*first - b'0');
        rest = after;
    }
    Some(value)
}

/// The number that digits write with no zero before them, where it is small. None says nothing.
fn small_natural(word: &[u8]) -> Option<u32>
    ensures { IfSome result (λ n. IsNatural word.now n) }
{
    if word.is_empty() || (word.len() != 1 && word[0] == b'0') {
        return None;
    }
    let value = small_value(word)?;
    Some(value)
}

/// The number that `-` and these digits write, where it is small. None says nothing.
fn small_negative(digits: &[u8]) -> Option<i64>
    ensures { IfSome result (λ n. number_of (45 ∷ digits.now) ≡ Some n) }
{
    let value = small_natural(digits)?;
    if value == 0 {
        return None;
    }
    Some(-i64::from(value))
}

/// The number that a word is, where it is small. None says nothing.
fn small_number(word: &[u8]) -> Option<i64>
    ensures { IfSome result (λ n. number_of word.now ≡ Some n) }
{
    match word {
        [b'-', digits @ ..] => small_negative(digits),
        _ => match small_natural(word) {
            Some(value) => Some(i64::from(value)),
            None => None,
        },
    }
}

/// The number that a word is.
pub fn number(word: &[u8]) -> Option<i64>
    ensures { result ≡ number_of word.now }
{
    if let Some(value) = small_number(word) {
        return Some(value);
    }
    let Ok(text) = str::from_utf8(word) else {
        return None;
    };
    let Ok(value) = text.parse::<i64>() else {
        return None;
    };
    let mut buffer = Buffer::new();
    if buffer.format(value).as_bytes() == word {
        Some(value)
    } else {
        None
    }
}
