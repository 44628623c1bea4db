//! Adds and takes of a part of one word: what they answer, observe and write.
ghost use Rattle.std.specs.Prelude.{◌≡◌, if◌then◌else◌, IfOk, IsTrue, is_some, int_le};
ghost use Rattle.sto_model.specs.PlainReplies.{Done as ToldDone, Flag as ToldFlag, Range as ToldRange};
ghost use Rattle.sto_type.specs.Plans.{IsSaid};
ghost use Rattle.sto_counter.specs.Sums.{word_pred_of, grows, falls, add_test, add_bound, add_items, add_updates, enough_items, take_items, take_updates, less};
ghost use Rattle.sto_counter.specs.Replies.{add_reply, take_reply};

use sto_item::{Item, Items};
use sto_model::Reply;
use sto_part::{Change, NoMemory, Pred, Test, wrapping_difference};
use sto_type::{Answer, AnswerPool, one_item, one_update};

/// That the one word of a part compares with a bound.
pub fn word_pred(part: u32, test: Test, bound: i64) -> Pred
    ensures { result ≡ word_pred_of part test bound }
{
    Pred {
        part,
        word: 0,
        shift: 0,
        test,
        bound,
    }
}

/// The answer to an add to the one word of a part, which has this value.
pub fn add_answer(
    pool: &mut AnswerPool,
    part: u32,
    more: i64,
    value: i64,
) -> Result<Answer, NoMemory>
    ensures { IfOk result (IsSaid (add_reply more value) (add_items part more value) (add_updates part more value)) }
{
    let able = can_add(value, more);
    let items = one_item(pool, Item::Holds(add_pred(part, more, able)))?;
    if able {
        Ok(Answer::Done {
            reply: Reply::Done,
            items,
            updates: one_update(pool, part, Change::Add(more))?,
        })
    } else {
        Ok(Answer::Done {
            reply: Reply::Range,
            items,
            updates: pool.updates(),
        })
    }
}

// Whether the sum is a number of 64 bits.
fn can_add(value: i64, more: i64) -> bool
    ensures { result ≡ grows more value }
{
    value.checked_add(more).is_some()
}

// Whether the difference is one.
fn can_take(value: i64, number: i64) -> bool
    ensures { result ≡ falls number value }
{
    value.checked_sub(number).is_some()
}

// The side of the bound on which a number lies to which this can be added, or cannot.
fn add_pred(part: u32, more: i64, able: bool) -> Pred
    ensures { result ≡ word_pred_of part (add_test more able) (add_bound more) }
{
    if more >= 0 {
        let test = if able { Test::Le } else { Test::Gt };
        word_pred(part, test, i64::MAX - more)
    } else {
        let test = if able { Test::Ge } else { Test::Lt };
        word_pred(part, test, i64::MIN - more)
    }
}

/// The answer to a take from the one word of a part, which has this value.
pub fn take_answer(
    pool: &mut AnswerPool,
    part: u32,
    number: i64,
    value: i64,
) -> Result<Answer, NoMemory>
    ensures { IfOk result (IsSaid (take_reply number value) (take_items part number value) (take_updates part number value)) }
{
    if value < number {
        Ok(Answer::Done {
            reply: Reply::Flag(false),
            items: one_item(pool, Item::Holds(word_pred(part, Test::Lt, number)))?,
            updates: pool.updates(),
        })
    } else if can_take(value, number) {
        Ok(Answer::Done {
            reply: Reply::Flag(true),
            items: enough(pool, part, number)?,
            updates: one_update(pool, part, Change::Add(wrapping_difference(0, number)))?,
        })
    } else {
        let beyond = word_pred(part, Test::Gt, i64::MAX + number);
        Ok(Answer::Done {
            reply: Reply::Range,
            items: one_item(pool, Item::Holds(beyond))?,
            updates: pool.updates(),
        })
    }
}

// That there is enough to take; for a number below 0 also that the difference stays in range.
fn enough(pool: &mut AnswerPool, part: u32, number: i64) -> Result<Items, NoMemory>
    ensures { IfOk result (λ l. l.items ≡ enough_items part number) }
{
    let mut items = one_item(pool, Item::Holds(word_pred(part, Test::Ge, number)))?;
    if number < 0 {
        items.push(Item::Holds(word_pred(part, Test::Le, i64::MAX + number)))?;
    }
    Ok(items)
}
