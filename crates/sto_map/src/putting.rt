//! The plan of a put.
ghost use Rattle.std.specs.Prelude.{◌≡◌, ◌<◌, ◌≤◌, ◌+◌, ℤ, false, length, IfOk};
ghost use Rattle.sto_part.specs.declared.change.Change.TheVariants.{Put};
ghost use Rattle.sto_item.specs.Pending.{is_keep};
ghost use Rattle.sto_type.specs.Known.{known};
ghost use Rattle.sto_type.specs.Plans.{planned};
ghost use Rattle.sto_type.specs.Telling.{plan_of};
ghost use Rattle.sto_map.specs.Mapped.{Sizes, change_found, look_all, place_from_home, put_absent};

use crate::adding::added;
use crate::plan::change_answer;
use crate::rooms::{Free, Room, place_from, room_from};
use crate::seeking::{Look, seek};
use crate::size::Size;
use sto_container::says;
use sto_item::Items;
use sto_model::Reply;
use sto_part::{Change, NoMemory};
use sto_type::{Answer, AnswerPool, KnownParts};

// The answer of a put of a new key, where a stripe has room.
fn put_at(
    pool: &mut AnswerPool,
    cache: &KnownParts<'_>,
    size: &Size,
    home: u32,
    room: u32,
    seen: Items,
    key: Change,
    value: Change,
) -> Result<Answer, NoMemory>
    requires home { home < size.now.places }
    requires room { room < size.now.stripes }
    requires few { length seen.items ≤ size.now.places + 1 + size.now.stripes }
    requires changes { is_keep value ≡ false }
    ensures { IfOk result (λ a. (z : Sizes) → (k : ℤ) → (x : ℤ) → z.places ≡ size.now.places → z.stripes ≡ size.now.stripes → z.home k ≡ home → key ≡ Put k → value ≡ Put x
        → planned a ≡ plan_of (place_from_home z k x room seen.items) (known cache.now)) }
{
    match place_from(cache, size, home, seen)? {
        Free::Need(part) => Ok(Answer::Need(part)),
        Free::Nowhere(items) => says(pool, Reply::Absent, items),
        Free::There(place, items) => {
            let updates = added(pool, size, home, room, place, key, value)?;
            Ok(Answer::Done {
                reply: Reply::Done,
                items,
                updates,
            })
        }
    }
}

// The answer of a put of a new key.
fn put_new(
    pool: &mut AnswerPool,
    cache: &KnownParts<'_>,
    size: &Size,
    home: u32,
    stripe: u32,
    absence: Items,
    key: Change,
    value: Change,
) -> Result<Answer, NoMemory>
    requires home { home < size.now.places }
    requires stripe { stripe < size.now.stripes }
    requires few { length absence.items ≤ size.now.places + 1 }
    requires changes { is_keep value ≡ false }
    ensures { IfOk result (λ a. (z : Sizes) → (k : ℤ) → (x : ℤ) → z.places ≡ size.now.places → z.stripes ≡ size.now.stripes → z.home k ≡ home → z.stripe k ≡ stripe → key ≡ Put k → value ≡ Put x
        → planned a ≡ plan_of (put_absent z k x absence.items) (known cache.now)) }
{
    match room_from(cache, size, stripe, absence)? {
        Room::Need(part) => Ok(Answer::Need(part)),
        Room::Full(items) => says(pool, Reply::Full, items),
        Room::Left(room, items) => put_at(pool, cache, size, home, room, items, key, value),
    }
}

/// The plan of a put.
pub(crate) fn plan_put(
    pool: &mut AnswerPool,
    cache: &KnownParts<'_>,
    size: &Size,
    home: u32,
    stripe: u32,
    key: i64,
    value: i64,
) -> Result<Answer, NoMemory>
    requires home { home < size.now.places }
    requires stripe { stripe < size.now.stripes }
    ensures { IfOk result (λ a. (z : Sizes) → z.places ≡ size.now.places → z.stripes ≡ size.now.stripes → z.home key ≡ home → z.stripe key ≡ stripe
        → planned a ≡ plan_of (look_all z key (change_found z (Put value)) (put_absent z key value)) (known cache.now)) }
{
    match seek(pool, cache, size, home, key)? {
        Look::Need(part) => Ok(Answer::Need(part)),
        Look::Absent(items) => put_new(
            pool,
            cache,
            size,
            home,
            stripe,
            items,
            Change::Put(key),
            Change::Put(value),
        ),
        Look::Found(place) => change_answer(pool, size, place, Change::Put(value)),
    }
}
