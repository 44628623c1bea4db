//! Places that are used round and round.
ghost use Rattle.std.specs.Prelude.{◌≡◌, ◌<◌};
ghost use Rattle.sto_container.specs.Places.{next as the_next, offset as the_offset, is_live as lives};

use sto_type::word_at;

/// The place behind a place.
pub fn next(places: u32, place: u32) -> u32
    requires { place < places }
    ensures { result ≡ the_next places place }
{
    if place + 1 < places { place + 1 } else { 0 }
}

/// How far a place stands behind the first.
pub fn offset(places: u32, first: u32, place: u32) -> u32
    requires first { first < places }
    requires place { place < places }
    ensures { result ≡ the_offset places first place }
{
    if first <= place {
        place - first
    } else {
        places - first + place
    }
}

/// Whether a place is live, by the words of its part.
pub fn is_live(words: &[i64]) -> bool
    ensures { result ≡ lives words.now }
{
    word_at(words, 0) == 1
}
