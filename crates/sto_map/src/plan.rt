//! The plans of the calls of a map.
ghost use Rattle.std.specs.Prelude.{◌≡◌, ◌<◌, [], false, ℤ, IfOk};
ghost use Rattle.sto_item.specs.Pending.{is_keep};
ghost use Rattle.sto_model.specs.PlainReplies.{Absent as ToldAbsent, Flag};
ghost use Rattle.sto_type.specs.Known.{known, Known};
ghost use Rattle.sto_type.specs.Plans.{planned};
ghost use Rattle.sto_type.specs.Telling.{Tell, plan_of};
ghost use Rattle.sto_map.specs.Mapped.{Sizes, get_found, has_found, change_found, remove_found, look_all};

use crate::removing::removed;
use crate::seeking::{Look, seek};
use crate::size::{Size, key_part, value_part};
use sto_container::says;
use sto_item::Item;
use sto_model::Reply;
use sto_part::{Change, NoMemory};
use sto_type::{Answer, AnswerPool, KnownParts, one_item, one_update, word_at};

// The answer of a get at the place of its key.
fn get_answer(
    pool: &mut AnswerPool,
    cache: &KnownParts<'_>,
    size: &Size,
    place: u32,
) -> Result<Answer, NoMemory>
    requires { place < size.now.places }
    ensures { IfOk result (λ a. (z : Sizes) → z.places ≡ size.now.places → z.stripes ≡ size.now.stripes
        → planned a ≡ plan_of (get_found z place) (known cache.now)) }
{
    let part = value_part(size, place);
    let Some(words) = cache.get(part) else {
        return Ok(Answer::Need(part));
    };
    let mut items = one_item(pool, Item::Seen(key_part(size, place)))?;
    items.push(Item::Seen(part))?;
    Ok(Answer::Done {
        reply: Reply::Value(word_at(words, 0)),
        items,
        updates: pool.updates(),
    })
}

/// The plan of a get.
pub(crate) fn plan_get(
    pool: &mut AnswerPool,
    cache: &KnownParts<'_>,
    size: &Size,
    home: u32,
    key: i64,
) -> Result<Answer, NoMemory>
    requires { home < size.now.places }
    ensures { IfOk result (λ a. (z : Sizes) → z.places ≡ size.now.places → z.stripes ≡ size.now.stripes → z.home key ≡ home
        → planned a ≡ plan_of (look_all z key (get_found z) (λ seen. Tell ToldAbsent seen [])) (known cache.now)) }
{
    match seek(pool, cache, size, home, key)? {
        Look::Need(part) => Ok(Answer::Need(part)),
        Look::Absent(items) => says(pool, Reply::Absent, items),
        Look::Found(place) => get_answer(pool, cache, size, place),
    }
}

// The answer of a change at the place of its key.
pub(crate) fn change_answer(
    pool: &mut AnswerPool,
    size: &Size,
    place: u32,
    change: Change,
) -> Result<Answer, NoMemory>
    requires place { place < size.now.places }
    requires changes { is_keep change ≡ false }
    ensures { IfOk result (λ a. (z : Sizes) → z.places ≡ size.now.places → z.stripes ≡ size.now.stripes
        → (k : Known) → planned a ≡ plan_of (change_found z change place) k) }
{
    Ok(Answer::Done {
        reply: Reply::Done,
        items: one_item(pool, Item::Seen(key_part(size, place)))?,
        updates: one_update(pool, value_part(size, place), change)?,
    })
}

/// The plan of a set or an add.
pub(crate) fn plan_change(
    pool: &mut AnswerPool,
    cache: &KnownParts<'_>,
    size: &Size,
    home: u32,
    key: i64,
    change: Change,
) -> Result<Answer, NoMemory>
    requires home { home < size.now.places }
    requires changes { is_keep change ≡ false }
    ensures { IfOk result (λ a. (z : Sizes) → z.places ≡ size.now.places → z.stripes ≡ size.now.stripes → z.home key ≡ home
        → planned a ≡ plan_of (look_all z key (change_found z change) (λ seen. Tell ToldAbsent seen [])) (known cache.now)) }
{
    match seek(pool, cache, size, home, key)? {
        Look::Need(part) => Ok(Answer::Need(part)),
        Look::Absent(items) => says(pool, Reply::Absent, items),
        Look::Found(place) => change_answer(pool, size, place, change),
    }
}

/// The plan of a has.
pub(crate) fn plan_has(
    pool: &mut AnswerPool,
    cache: &KnownParts<'_>,
    size: &Size,
    home: u32,
    key: i64,
) -> Result<Answer, NoMemory>
    requires { home < size.now.places }
    ensures { IfOk result (λ a. (z : Sizes) → z.places ≡ size.now.places → z.stripes ≡ size.now.stripes → z.home key ≡ home
        → planned a ≡ plan_of (look_all z key (has_found z) (λ seen. Tell (Flag false) seen [])) (known cache.now)) }
{
    match seek(pool, cache, size, home, key)? {
        Look::Need(part) => Ok(Answer::Need(part)),
        Look::Absent(items) => says(pool, Reply::Flag(false), items),
        Look::Found(place) => {
            let items = one_item(pool, Item::Seen(key_part(size, place)))?;
            says(pool, Reply::Flag(true), items)
        }
    }
}

// The answer of a remove at the place of its key.
fn remove_answer(
    pool: &mut AnswerPool,
    size: &Size,
    home: u32,
    stripe: u32,
    place: u32,
) -> Result<Answer, NoMemory>
    requires home { home < size.now.places }
    requires stripe { stripe < size.now.stripes }
    requires place { place < size.now.places }
    ensures { IfOk result (λ a. (z : Sizes) → (key : ℤ) → z.places ≡ size.now.places → z.stripes ≡ size.now.stripes → z.home key ≡ home → z.stripe key ≡ stripe
        → (k : Known) → planned a ≡ plan_of (remove_found z key place) k) }
{
    Ok(Answer::Done {
        reply: Reply::Flag(true),
        items: one_item(pool, Item::Seen(key_part(size, place)))?,
        updates: removed(pool, size, home, stripe, place)?,
    })
}

/// The plan of a remove.
pub(crate) fn plan_remove(
    pool: &mut AnswerPool,
    cache: &KnownParts<'_>,
    size: &Size,
    home: u32,
    stripe: u32,
    key: i64,
) -> Result<Answer, NoMemory>
    requires home { home < size.now.places }
    requires stripe { stripe < size.now.stripes }
    ensures { IfOk result (λ a. (z : Sizes) → z.places ≡ size.now.places → z.stripes ≡ size.now.stripes → z.home key ≡ home → z.stripe key ≡ stripe
        → planned a ≡ plan_of (look_all z key (remove_found z key) (λ seen. Tell (Flag false) seen [])) (known cache.now)) }
{
    match seek(pool, cache, size, home, key)? {
        Look::Need(part) => Ok(Answer::Need(part)),
        Look::Absent(items) => says(pool, Reply::Flag(false), items),
        Look::Found(place) => remove_answer(pool, size, home, stripe, place),
    }
}
