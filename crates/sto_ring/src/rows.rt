//! The values of a ring, from the head on.
ghost use Rattle.std.specs.Prelude.{◌≡◌, ◌<◌, ◌≤◌, ◌+◌, ◌^◌, suc, drop, length, IfOk};
ghost use Rattle.sto_part.specs.Parts.{part_of};
ghost use Rattle.sto_type.specs.Words.{word};
ghost use Rattle.sto_ring.specs.LivePlaces.{size_by};
ghost use Rattle.sto_ring.specs.Ringed.{along};

use std::alloc::Global;
use sto_container::{next, offset};
use sto_part::{Contents, NoMemory, PartWords};
use sto_type::word_at;

/// The size, by both ends and whether the place of the head is live.
pub(crate) fn size_of(places: u32, head: u32, tail: u32, live: bool) -> u32
    requires head { head < places }
    requires tail { tail < places }
    requires few { places + 2 < 2 ^ 32 }
    ensures is { result ≡ size_by places head tail live }
    ensures few { result ≤ places }
{
    if head == tail {
        if live { places } else { 0 }
    } else {
        offset(places, head, tail)
    }
}

// The value of a place.
fn value_in(contents: &Contents, first: u32, place: u32) -> i64
    requires part { first + (place + 2) < length contents.now.items }
    ensures { result ≡ word (part_of (drop first contents.now.items) (suc (suc place))) 1 }
{
    let _parts = contents.parts();
    word_at(contents.get(first + (place + 2)).as_slice(), 1)
}

/// The values of so many places from one on, of contents that begin at a part.
pub(crate) fn values_along(
    alloc: Global,
    contents: &Contents,
    first: u32,
    places: u32,
    head: u32,
    size: u32,
) -> Result<PartWords, NoMemory>
    requires few { places + 2 < 2 ^ 32 }
    requires head { head < places }
    requires there { first + (places + 2) ≤ length contents.now.items }
    ensures { IfOk result (λ l. l.items ≡ along places (drop first contents.now.items) head size) }
{
    let _parts = contents.parts();
    let mut values = PartWords::new(alloc);
    let mut place = head;
    for _ in 0..size {
        values.push(value_in(contents, first, place))?;
        place = next(places, place);
    }
    Ok(values)
}
