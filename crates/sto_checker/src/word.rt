//! Words of a line, and the numbers that they write.
ghost use Rattle.std.specs.Prelude.{◌≡◌, ◌+◌, ◌*◌, ◌<◌, ◌≤◌, ◌^◌, [], ◌∷◌, length, MatchOption, IfSome, position, ◌==◌};
ghost use Rattle.std.specs.List.{slice_split};
ghost use Rattle.std.specs.Char.{digit_value};
ghost use Rattle.std.specs.Str.Parse.{digits_value};

// Where the first byte of a kind is.
fn place_of(bytes: &[u8], at: u8) -> Option<usize>
    ensures { result ≡ position (λ b. b == at) bytes.now }
{
    bytes.iter().position(|b| *b == at)
}

/// What stands before the first byte of a kind, and after it.
pub fn first_piece(bytes: &[u8], at: u8) -> (&[u8], Option<&[u8]>)
    ensures pieces { MatchOption result.1 (slice_split (λ b. b == at) bytes.now ≡ result.0.now ∷ [])
        (λ rest. slice_split (λ b. b == at) bytes.now ≡ result.0.now ∷ slice_split (λ b. b == at) rest.now) }
    ensures less { IfSome result.1 (λ rest. length rest.now < length bytes.now) }
{
    match place_of(bytes, at) {
        Some(end) => (&bytes[..end], Some(&bytes[end + 1..])),
        None => (bytes, None),
    }
}

// The value of a byte as a digit; letters follow the digits, and all others stand behind.
fn digit(byte: u8) -> u32
    ensures { result ≡ digit_value byte }
{
    match byte {
        b'0'..=b'9' => u32::from(byte) - 48,
        b'A'..=b'Z' => u32::from(byte) - 55,
        b'a'..=b'z' => u32::from(byte) - 87,
        _ => 36,
    }
}

// A number with one more digit, where it is below 2^32.
fn with_digit(value: u32, byte: u8) -> Option<u32>
    ensures { MatchOption result (2 ^ 32 ≤ value * 10 + digit_value byte) (λ more. more ≡ value * 10 + digit_value byte) }
{
    let more = u64::from(value) * 10 + u64::from(digit(byte));
    if more <= u64::from(u32::MAX) {
        Some(more as u32)
    } else {
        None
    }
}

/// The number that a word writes, where it is below 2^32.
#[tactic(auto, using(crate::proofs::Digits::one_digit, crate::proofs::Digits::too_many))]
pub fn number(word: &[u8]) -> Option<u32>
    ensures { MatchOption result (2 ^ 32 ≤ digits_value 10 word.now) (λ n. digits_value 10 word.now ≡ n) }
{
    let mut value: u32 = 0;
    for byte in word {
        value = with_digit(value, *byte)?;
    }
    Some(value)
}
