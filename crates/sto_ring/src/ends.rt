//! The ends of a ring, and the places that they name.
ghost use Rattle.std.specs.Prelude.{◌≡◌, ◌<◌, ◌+◌, ◌^◌, ℕ, ℤ, List as Seq, pos, suc, Some, IfOk, IfErr};
ghost use Rattle.sto_type.specs.Known.{known};
ghost use Rattle.sto_type.specs.Plans.{Ask};
ghost use Rattle.sto_type.specs.Telling.{Telling, plan_of};
ghost use Rattle.sto_type.specs.Words.{word};
ghost use Rattle.sto_ring.specs.Ringed.{at_end as reads_end};

use sto_type::KnownParts;

/// A place that an end names, and the words of its part.
#[derive(Drop)]
pub(crate) struct End<'c> {
    pub(crate) place: u32,
    pub(crate) words: &'c [i64],
}

/// The part of a place.
pub(crate) fn place_part(place: u32) -> u32
    requires { place + 2 < 2 ^ 32 }
    ensures { result ≡ suc (suc place) }
{
    place + 2
}

/// The number that a word says.
pub(crate) fn number_in(places: u32, word: i64) -> u32
    requires { (i : ℕ) × (word ≡ pos i) × (i < places) }
    ensures is { pos result ≡ word }
    ensures range { result < places }
{
    word as u32
}

/// The place that an end names with its words, or the part that is to be read first.
pub(crate) fn at_end<'c>(cache: &KnownParts<'c>, places: u32, part: u32) -> Result<End<'c>, u32>
    requires few { places + 2 < 2 ^ 32 }
    requires end { (ws : Seq ℤ) → known cache.now part ≡ Some ws → (i : ℕ) × (word ws 0 ≡ pos i) × (i < places) }
    ensures found { IfOk result (λ e. (f : ℕ → Seq ℤ → Telling) → plan_of (reads_end part f) (known cache.now) ≡ plan_of (f e.place e.words.now) (known cache.now)) }
    ensures place { IfOk result (λ e. e.place < places) }
    ensures asks { IfErr result (λ p. (f : ℕ → Seq ℤ → Telling) → plan_of (reads_end part f) (known cache.now) ≡ Ask p) }
{
    let Some(end) = cache.first_word(part) else {
        return Err(part);
    };
    let place = number_in(places, end);
    let Some(words) = cache.get(place_part(place)) else {
        return Err(place_part(place));
    };
    Ok(End { place, words })
}
