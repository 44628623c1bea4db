//! Numbers in words.
ghost use Rattle.std.specs.Prelude.{◌≡◌, ◌≤◌, IfSome};
ghost use Rattle.sto_args.specs.Commands.{decimal_of, number_in};

use itoa::Buffer;

/// The number that a text is, in decimal digits with no sign and no leading zero.
pub(crate) fn decimal_of(text: &str) -> Option<u64>
    ensures { result ≡ decimal_of text.now }
{
    let Ok(value) = text.parse::<u64>() else {
        return None;
    };
    let mut buffer = Buffer::new();
    if buffer.format(value) == text {
        Some(value)
    } else {
        None
    }
}

/// Such a number, where it is from `low` to `high`.
pub(crate) fn number_in(low: u64, high: u64, text: &str) -> Option<u64>
    ensures number { result ≡ number_in low high text.now }
    ensures range { IfSome result (λ n. (low ≤ n) × (n ≤ high)) }
{
    let value = decimal_of(text)?;
    if low <= value && value <= high {
        Some(value)
    } else {
        None
    }
}
