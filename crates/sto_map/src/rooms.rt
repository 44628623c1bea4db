//! The room and the place of a new key.
ghost use Rattle.std.specs.Prelude.{◌≡◌, ◌<◌, ◌≤◌, ◌+◌, ℕ, ℤ, length, IfOk};
ghost use Rattle.sto_type.specs.Known.{known};
ghost use Rattle.sto_type.specs.Telling.{plan_of};
ghost use Rattle.sto_map.specs.Mapped.{Sizes, room_walk, place_walk};
ghost use Rattle.sto_map.specs.Roomed.{room_comes, place_comes, IsRoom, IsFree};

use crate::size::{Size, key_part};
use sto_container::{is_live, next};
use sto_item::{Item, Items};
use sto_part::{NoMemory, Test};
use sto_type::{KnownParts, compares};

/// What the walk over the rooms comes to, on what is known.
#[derive(Drop)]
pub(crate) enum Room {
    /// This stripe has room.
    Left(u32, Items),
    /// No stripe has room, as these items show.
    Full(Items),
    /// This part has to be known first.
    Need(u32),
}

/// What the walk over the places comes to, on what is known.
#[derive(Drop)]
pub(crate) enum Free {
    /// This place is not live.
    There(u32, Items),
    /// Each place is live.
    Nowhere(Items),
    /// This part has to be known first.
    Need(u32),
}

/// Looks for the first stripe on with room.
pub(crate) fn room_from(
    cache: &KnownParts<'_>,
    size: &Size,
    stripe: u32,
    absence: Items,
) -> Result<Room, NoMemory>
    requires stripe { stripe < size.now.stripes }
    requires some { 0 < size.now.places }
    requires few { length absence.items ≤ size.now.places + 1 }
    ensures comes { IfOk result (λ l. (z : Sizes) → z.places ≡ size.now.places → z.stripes ≡ size.now.stripes → (key : ℤ) → (x : ℤ)
        → plan_of (room_walk z key x z.stripes stripe absence.items) (known cache.now) ≡ room_comes z key x l (known cache.now)) }
    ensures below { IfOk result (IsRoom size.now.places size.now.stripes) }
{
    let mut items = absence;
    let mut at = stripe;
    for _ in 0..size.stripes {
        let Some(room) = cache.first_word(at) else {
            return Ok(Room::Need(at));
        };
        if room >= 1 {
            items.push(compares(at, 0, Test::Ge, 1))?;
            return Ok(Room::Left(at, items));
        }
        items.push(compares(at, 0, Test::Lt, 1))?;
        at = next(size.stripes, at);
    }
    Ok(Room::Full(items))
}

/// Looks for the first place that is not live, from the home of a key on.
pub(crate) fn place_from(
    cache: &KnownParts<'_>,
    size: &Size,
    home: u32,
    seen: Items,
) -> Result<Free, NoMemory>
    requires home { home < size.now.places }
    requires few { length seen.items ≤ size.now.places + 1 + size.now.stripes }
    ensures comes { IfOk result (λ l. (z : Sizes) → z.places ≡ size.now.places → z.stripes ≡ size.now.stripes → (key : ℤ) → (x : ℤ) → (s : ℕ)
        → plan_of (place_walk z key x s z.places home seen.items) (known cache.now) ≡ place_comes z key x s l (known cache.now)) }
    ensures below { IfOk result (IsFree size.now.places) }
{
    let mut items = seen;
    let mut place = home;
    for _ in 0..size.places {
        let part = key_part(size, place);
        let Some(words) = cache.get(part) else {
            return Ok(Free::Need(part));
        };
        items.push(Item::Seen(part))?;
        if !is_live(words) {
            return Ok(Free::There(place, items));
        }
        place = next(size.places, place);
    }
    Ok(Free::Nowhere(items))
}
