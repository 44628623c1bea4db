//! What calls of one key answer, observe and write, where the key part of its bucket is known.
ghost use Rattle.std.specs.Prelude.{◌≡◌, ◌+◌, ◌*◌, ◌<◌, ◌^◌, [], ◌∷◌, ◌++◌, length, is_some, MatchOption, Some, pos, IfOk};
ghost use Rattle.sto_item.specs.declared.item.Item.TheVariants.{Seen};
ghost use Rattle.sto_model.specs.PlainReplies.{plain_reply, Absent as ToldAbsent, Value as ToldValue, Flag as ToldFlag};
ghost use Rattle.sto_type.specs.Plans.{IsSaid};
ghost use Rattle.sto_block.specs.Blocks.{find as find_place, free as free_place};
ghost use Rattle.sto_block.specs.Replaced.{place_changes};
ghost use Rattle.sto_hash.specs.Hashed.{word_is, find_items, get_items, value_part, new_updates, put_updates, remove_updates, put_told};

use sto_item::{Item, Items, Updates};
use sto_model::Reply;
use sto_part::{Change, NoMemory, Pred, Test, Update};
use sto_type::{Answer, AnswerPool, one_item, one_update};

// That a word of a part is this number.
fn word_pred(part: u32, word: u32, number: i64) -> Pred
    ensures { result ≡ word_is part word number }
{
    Pred {
        part,
        word,
        shift: 0,
        test: Test::Eq,
        bound: number,
    }
}

// What a call of a key observes: the place where it is, or the whole key part where it is not.
fn observe(
    pool: &mut AnswerPool,
    part: u32,
    key: i64,
    found: Option<u32>,
) -> Result<Items, NoMemory>
    requires { MatchOption found (Unit {0}) (λ i. 2 * i + 1 < 2 ^ 32) }
    ensures { IfOk result (λ l. l.items ≡ find_items part key found) }
{
    match found {
        Some(place) => {
            let mut items = one_item(pool, Item::Holds(word_pred(part, 2 * place, 1)))?;
            items.push(Item::Holds(word_pred(part, 2 * place + 1, key)))?;
            Ok(items)
        }
        None => one_item(pool, Item::Seen(part)),
    }
}

/// A get of a key that is not there.
pub(crate) fn absent_answer(pool: &mut AnswerPool, part: u32) -> Result<Answer, NoMemory>
    ensures { IfOk result (IsSaid ToldAbsent (Seen part ∷ []) []) }
{
    Ok(Answer::Done {
        reply: Reply::Absent,
        items: one_item(pool, Item::Seen(part))?,
        updates: pool.updates(),
    })
}

/// A get of a key at a place, whose value is this.
pub(crate) fn present_answer(
    pool: &mut AnswerPool,
    part: u32,
    key: i64,
    place: u32,
    value: i64,
) -> Result<Answer, NoMemory>
    requires place { 2 * place + 1 < 2 ^ 32 }
    requires part { part + 1 + place < 2 ^ 32 }
    ensures { IfOk result (IsSaid (ToldValue value) (get_items part key (Some place)) []) }
{
    let mut items = observe(pool, part, key, Some(place))?;
    items.push(Item::Seen(part + 1 + place))?;
    Ok(Answer::Done {
        reply: Reply::Value(value),
        items,
        updates: pool.updates(),
    })
}

/// Whether a key is there.
pub(crate) fn has_answer(
    pool: &mut AnswerPool,
    part: u32,
    key: i64,
    found: Option<u32>,
) -> Result<Answer, NoMemory>
    requires { MatchOption found (Unit {0}) (λ i. 2 * i + 1 < 2 ^ 32) }
    ensures { IfOk result (IsSaid (ToldFlag (is_some found)) (find_items part key found) []) }
{
    Ok(Answer::Done {
        reply: Reply::Flag(found.is_some()),
        items: observe(pool, part, key, found)?,
        updates: pool.updates(),
    })
}

// The change of the two words of a place in a key part of so many places.
fn change_place(
    pool: &mut AnswerPool,
    places: u32,
    place: u32,
    present: Change,
    key: Change,
) -> Result<Update, NoMemory>
    requires few { 2 * places < 2 ^ 32 }
    requires place { place < places }
    ensures { IfOk result (λ u. u.items ≡ place_changes places place present key) }
{
    let mut update = pool.unchanged(2 * places)?;
    update.set_change(2 * place, present);
    update.set_change(2 * place + 1, key);
    Ok(update)
}

/// A remove of a key.
pub(crate) fn remove_answer(
    pool: &mut AnswerPool,
    places: u32,
    part: u32,
    key: i64,
    found: Option<u32>,
) -> Result<Answer, NoMemory>
    requires few { 2 * places < 2 ^ 32 }
    requires place { MatchOption found (Unit {0}) (λ i. i < places) }
    ensures { IfOk result (IsSaid (ToldFlag (is_some found)) (find_items part key found) (remove_updates places part found)) }
{
    Ok(Answer::Done {
        reply: Reply::Flag(found.is_some()),
        items: observe(pool, part, key, found)?,
        updates: remove_at(pool, places, part, found)?,
    })
}

// The updates of a remove.
fn remove_at(
    pool: &mut AnswerPool,
    places: u32,
    part: u32,
    found: Option<u32>,
) -> Result<Updates, NoMemory>
    requires few { 2 * places < 2 ^ 32 }
    requires place { MatchOption found (Unit {0}) (λ i. i < places) }
    ensures { IfOk result (λ u. u.items ≡ remove_updates places part found) }
{
    let mut updates = pool.updates();
    if let Some(place) = found {
        let update = change_place(pool, places, place, Change::Put(0), Change::Keep)?;
        updates.push((part, update))?;
    }
    Ok(updates)
}

// The updates of a put.
fn put_at(
    pool: &mut AnswerPool,
    places: u32,
    part: u32,
    key: i64,
    value: i64,
    found: Option<u32>,
    room: Option<u32>,
) -> Result<Updates, NoMemory>
    requires few { 2 * places < 2 ^ 32 }
    requires part { part + 1 + places < 2 ^ 32 }
    requires found { MatchOption found (Unit {0}) (λ i. i < places) }
    requires room { MatchOption room (Unit {0}) (λ i. i < places) }
    ensures { IfOk result (λ u. u.items ≡ put_updates places part key value found room) }
{
    match found {
        Some(place) => one_update(pool, part + 1 + place, Change::Put(value)),
        None => match room {
            Some(place) => put_new(pool, places, part, key, value, place),
            None => Ok(pool.updates()),
        },
    }
}

// Those of a put of a new key into a free place.
fn put_new(
    pool: &mut AnswerPool,
    places: u32,
    part: u32,
    key: i64,
    value: i64,
    place: u32,
) -> Result<Updates, NoMemory>
    requires few { 2 * places < 2 ^ 32 }
    requires part { part + 1 + places < 2 ^ 32 }
    requires place { place < places }
    ensures { IfOk result (λ u. u.items ≡ new_updates places part key value (Some place)) }
{
    let keys = change_place(pool, places, place, Change::Put(1), Change::Put(key))?;
    let mut updates = pool.updates();
    updates.push((part, keys))?;
    let mut put = pool.update();
    put.push(Change::Put(value))?;
    updates.push((part + 1 + place, put))?;
    Ok(updates)
}

/// A put of a key, where its bucket has this room.
pub(crate) fn put_answer(
    pool: &mut AnswerPool,
    places: u32,
    part: u32,
    key: i64,
    value: i64,
    found: Option<u32>,
    room: Option<u32>,
) -> Result<Answer, NoMemory>
    requires few { 2 * places < 2 ^ 32 }
    requires part { part + 1 + places < 2 ^ 32 }
    requires found { MatchOption found (Unit {0}) (λ i. i < places) }
    requires room { MatchOption room (Unit {0}) (λ i. i < places) }
    ensures { IfOk result (IsSaid (put_told found room) (find_items part key found) (put_updates places part key value found room)) }
{
    let items = observe(pool, part, key, found)?;
    Ok(Answer::Done {
        reply: put_reply(found, room),
        items,
        updates: put_at(pool, places, part, key, value, found, room)?,
    })
}

fn put_reply(found: Option<u32>, room: Option<u32>) -> Reply
    ensures { plain_reply result ≡ put_told found room }
{
    if found.is_none() && room.is_none() {
        Reply::Full
    } else {
        Reply::Done
    }
}
