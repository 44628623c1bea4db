//! What the calls of a ring answer, observe and write, where the place of an end is known.
ghost use Rattle.std.specs.Prelude.{◌≡◌, ◌<◌, ◌+◌, ◌^◌, [], ◌∷◌, pos, suc, false, IfOk};
ghost use Rattle.sto_part.specs.declared.change.Change.TheVariants.{Put, Keep};
ghost use Rattle.sto_part.specs.declared.pred.Test.TheVariants.{Eq as TestEq};
ghost use Rattle.sto_model.specs.PlainReplies.{Absent as ToldAbsent};
ghost use Rattle.sto_item.specs.Pending.{is_keep};
ghost use Rattle.sto_type.specs.Known.{Known};
ghost use Rattle.sto_type.specs.Plans.{Say, planned};
ghost use Rattle.sto_type.specs.Telling.{plan_of};
ghost use Rattle.sto_type.specs.Words.{compared};
ghost use Rattle.sto_container.specs.Places.{next as the_next, is_live as lives};
ghost use Rattle.sto_ring.specs.Ringed.{bit as the_bit, push_told, pop_told, front_told, some_told, len_said};

use crate::ends::{End, place_part};
use sto_container::{is_live, next};
use sto_item::{Item, Items, Updates};
use sto_model::Reply;
use sto_part::{Change, NoMemory, Test};
use sto_type::{Answer, AnswerPool, compares, one_item, one_update, word_at};

// That an end is a place, and what else is observed.
fn seen_at(pool: &mut AnswerPool, part: u32, place: u32, also: Item) -> Result<Items, NoMemory>
    ensures { IfOk result (λ l. l.items ≡ compared part 0 TestEq (pos place) ∷ also ∷ []) }
{
    let mut items = one_item(pool, compares(part, 0, Test::Eq, i64::from(place)))?;
    items.push(also)?;
    Ok(items)
}

// That a place is live or not.
fn live_is(place: u32, live: bool) -> Item
    requires { place + 2 < 2 ^ 32 }
    ensures { result ≡ compared (suc (suc place)) 0 TestEq (the_bit live) }
{
    compares(place_part(place), 0, Test::Eq, if live { 1 } else { 0 })
}

// The end moves on, and the words of its place change.
fn moved(
    pool: &mut AnswerPool,
    places: u32,
    part: u32,
    place: u32,
    live: Change,
    value: Change,
) -> Result<Updates, NoMemory>
    requires few { place + 2 < 2 ^ 32 }
    requires range { place < places }
    requires part { part < 2 }
    requires changes { is_keep live ≡ false }
    ensures { IfOk result (λ l. l.items ≡ (part, Put (pos (the_next places place)) ∷ []) ∷ (suc (suc place), live ∷ value ∷ []) ∷ []) }
{
    let mut words = pool.update();
    words.push(live)?;
    words.push(value)?;
    let mut updates = one_update(pool, part, Change::Put(i64::from(next(places, place))))?;
    updates.push((place_part(place), words))?;
    Ok(updates)
}

/// The answer to a push.
pub(crate) fn push_answer(
    pool: &mut AnswerPool,
    places: u32,
    end: &End<'_>,
    value: i64,
) -> Result<Answer, NoMemory>
    requires few { places + 2 < 2 ^ 32 }
    requires range { end.now.place < places }
    ensures { IfOk result (λ a. (k : Known) → planned a ≡ plan_of (push_told places value end.now.place (lives end.now.words.now)) k) }
{
    if is_live(end.words) {
        return Ok(Answer::Done {
            reply: Reply::Full,
            items: seen_at(pool, 1, end.place, live_is(end.place, true))?,
            updates: pool.updates(),
        });
    }
    Ok(Answer::Done {
        reply: Reply::Done,
        items: seen_at(pool, 1, end.place, live_is(end.place, false))?,
        updates: moved(
            pool,
            places,
            1,
            end.place,
            Change::Put(1),
            Change::Put(value),
        )?,
    })
}

// The answer that there is no value.
fn no_value(pool: &mut AnswerPool, place: u32) -> Result<Answer, NoMemory>
    requires { place + 2 < 2 ^ 32 }
    ensures { IfOk result (λ a. planned a ≡ Say ToldAbsent (compared 0 0 TestEq (pos place) ∷ compared (suc (suc place)) 0 TestEq (pos 0) ∷ []) []) }
{
    Ok(Answer::Done {
        reply: Reply::Absent,
        items: seen_at(pool, 0, place, live_is(place, false))?,
        updates: pool.updates(),
    })
}

/// The answer to a pop.
pub(crate) fn pop_answer(
    pool: &mut AnswerPool,
    places: u32,
    end: &End<'_>,
) -> Result<Answer, NoMemory>
    requires few { places + 2 < 2 ^ 32 }
    requires range { end.now.place < places }
    ensures { IfOk result (λ a. (k : Known) → planned a ≡ plan_of (pop_told places end.now.place end.now.words.now (lives end.now.words.now)) k) }
{
    if !is_live(end.words) {
        return no_value(pool, end.place);
    }
    Ok(Answer::Done {
        reply: Reply::Value(word_at(end.words, 1)),
        items: seen_at(pool, 0, end.place, Item::Seen(place_part(end.place)))?,
        updates: moved(pool, places, 0, end.place, Change::Put(0), Change::Keep)?,
    })
}

/// The answer to a front.
pub(crate) fn front_answer(
    pool: &mut AnswerPool,
    places: u32,
    end: &End<'_>,
) -> Result<Answer, NoMemory>
    requires few { places + 2 < 2 ^ 32 }
    requires range { end.now.place < places }
    ensures { IfOk result (λ a. (k : Known) → planned a ≡ plan_of (front_told end.now.place end.now.words.now (lives end.now.words.now)) k) }
{
    if !is_live(end.words) {
        return no_value(pool, end.place);
    }
    Ok(Answer::Done {
        reply: Reply::Value(word_at(end.words, 1)),
        items: seen_at(pool, 0, end.place, Item::Seen(place_part(end.place)))?,
        updates: pool.updates(),
    })
}

/// The answer to a some.
pub(crate) fn some_answer(
    pool: &mut AnswerPool,
    places: u32,
    end: &End<'_>,
) -> Result<Answer, NoMemory>
    requires few { places + 2 < 2 ^ 32 }
    requires range { end.now.place < places }
    ensures { IfOk result (λ a. (k : Known) → planned a ≡ plan_of (some_told end.now.place (lives end.now.words.now)) k) }
{
    let live = is_live(end.words);
    Ok(Answer::Done {
        reply: Reply::Flag(live),
        items: seen_at(pool, 0, end.place, live_is(end.place, live))?,
        updates: pool.updates(),
    })
}

/// The answer to a len, where the ends differ or the place of the head is known.
pub(crate) fn len_answer(
    pool: &mut AnswerPool,
    size: u32,
    head: u32,
    tail: u32,
    live: Option<bool>,
) -> Result<Answer, NoMemory>
    requires { head + 2 < 2 ^ 32 }
    ensures { IfOk result (λ a. planned a ≡ len_said size head tail live) }
{
    let mut items = seen_at(pool, 0, head, compares(1, 0, Test::Eq, i64::from(tail)))?;
    if let Some(live) = live {
        items.push(live_is(head, live))?;
    }
    Ok(Answer::Done {
        reply: Reply::Value(i64::from(size)),
        items,
        updates: pool.updates(),
    })
}
