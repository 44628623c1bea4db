//! What a remove writes.
ghost use Rattle.std.specs.Prelude.{◌≡◌, ◌<◌, nat_lt, ℤ, IfOk};
ghost use Rattle.sto_container.specs.Places.{offset as the_offset};
ghost use Rattle.sto_map.specs.Mapped.{Sizes, removed as the_removed};

use crate::size::{Size, key_part, over_part};
use sto_container::offset;
use sto_item::Updates;
use sto_part::{Change, NoMemory};
use sto_type::{AnswerPool, one_update};

/// Whether a place stands before another on the way from a home.
pub(crate) fn is_before(places: u32, home: u32, one: u32, other: u32) -> bool
    requires home { home < places }
    requires one { one < places }
    requires other { other < places }
    ensures { result ≡ nat_lt (the_offset places home one) (the_offset places home other) }
{
    offset(places, home, one) < offset(places, home, other)
}

/// The updates of a remove of the key at a place.
pub(crate) fn removed(
    pool: &mut AnswerPool,
    size: &Size,
    home: u32,
    stripe: u32,
    place: u32,
) -> Result<Updates, NoMemory>
    requires home { home < size.now.places }
    requires stripe { stripe < size.now.stripes }
    requires place { place < size.now.places }
    ensures { IfOk result (λ l. (z : Sizes) → (key : ℤ) → z.places ≡ size.now.places → z.stripes ≡ size.now.stripes → z.home key ≡ home → z.stripe key ≡ stripe
        → l.items ≡ the_removed z key place) }
{
    let mut words = pool.update();
    words.push(Change::Put(0))?;
    words.push(Change::Keep)?;
    let mut updates = one_update(pool, stripe, Change::Add(1))?;
    updates.push((key_part(size, place), words))?;
    for other in 0..size.places {
        if is_before(size.places, home, other, place) {
            let mut less = pool.update();
            less.push(Change::Add(-1))?;
            updates.push((over_part(size, other), less))?;
        }
    }
    Ok(updates)
}
