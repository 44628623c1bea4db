//! What the calls of a vector answer, observe and write, where the size is known.
ghost use Rattle.std.specs.Prelude.{◌≡◌, ◌<◌, ◌+◌, ◌^◌, [], ◌∷◌, suc, pos, Some, IfOk, nat_lt, if◌then◌else◌};
ghost use Rattle.sto_part.specs.declared.change.Change.TheVariants.{Put, Add};
ghost use Rattle.sto_item.specs.declared.item.Item.TheVariants.{Seen};
ghost use Rattle.sto_model.specs.Objects.{compared};
ghost use Rattle.sto_model.specs.Operations.{test_of};
ghost use Rattle.sto_model.specs.PlainReplies.{Absent as ToldAbsent, Value as ToldValue, Flag as ToldFlag, Done as ToldDone, Full as ToldFull};
ghost use Rattle.sto_type.specs.Plans.{Say, planned};
ghost use Rattle.sto_counter.specs.Counted.{test_items};
ghost use Rattle.sto_vector.specs.Vectored.{size_holds, push_items, push_updates};
ghost use Rattle.sto_vector.specs.VectoredPlans.{get_plan, pop_plan};

use sto_counter::{test_answer, word_pred};
use sto_item::{Item, Updates};
use sto_model::{Reply, test_at};
use sto_part::{Change, NoMemory, Test};
use sto_type::{Answer, AnswerPool, one_item, one_update};

// That the size compares with a number.
fn size_holds(test: Test, number: u32) -> Item
    ensures { result ≡ size_holds test number }
{
    Item::Holds(word_pred(0, test, i64::from(number)))
}

/// The part of a place.
pub(crate) fn place_part(place: u32) -> u32
    requires { 1 + place < 2 ^ 32 }
    ensures { result ≡ suc place }
{
    1 + place
}

/// The answer to a get of an index that is no place.
pub(crate) fn outside(pool: &mut AnswerPool) -> Result<Answer, NoMemory>
    ensures { IfOk result (λ a. planned a ≡ Say ToldAbsent [] []) }
{
    Ok(Answer::Done {
        reply: Reply::Absent,
        items: pool.items(),
        updates: pool.updates(),
    })
}

// The answer that there is no value, by what the size is.
fn absent(pool: &mut AnswerPool, seen: Item) -> Result<Answer, NoMemory>
    ensures { IfOk result (λ a. planned a ≡ Say ToldAbsent (seen ∷ []) []) }
{
    Ok(Answer::Done {
        reply: Reply::Absent,
        items: one_item(pool, seen)?,
        updates: pool.updates(),
    })
}

/// The answer to a get of a place, by its word where that is known.
pub(crate) fn get_answer(
    pool: &mut AnswerPool,
    place: u32,
    size: u32,
    word: Option<i64>,
) -> Result<Answer, NoMemory>
    requires { 1 + place < 2 ^ 32 }
    ensures { IfOk result (λ a. planned a ≡ get_plan place size word) }
{
    if place < size {
        match word {
            None => Ok(Answer::Need(place_part(place))),
            Some(value) => {
                let mut items = one_item(pool, size_holds(Test::Gt, place))?;
                items.push(Item::Seen(place_part(place)))?;
                Ok(Answer::Done {
                    reply: Reply::Value(value),
                    items,
                    updates: pool.updates(),
                })
            }
        }
    } else {
        absent(pool, size_holds(Test::Le, place))
    }
}

/// The answer to a test of the size.
pub(crate) fn size_answer(
    pool: &mut AnswerPool,
    test: i64,
    bound: i64,
    size: u32,
) -> Result<Answer, NoMemory>
    ensures { IfOk result (λ a. planned a ≡ Say (ToldFlag (compared (test_of test) (pos size) bound))
        (test_items (test_of test) bound (pos size)) []) }
{
    test_answer(pool, test_at(test), bound, i64::from(size))
}

/// The answer to a len.
pub(crate) fn len_answer(pool: &mut AnswerPool, size: u32) -> Result<Answer, NoMemory>
    ensures { IfOk result (λ a. planned a ≡ Say (ToldValue (pos size)) (Seen 0 ∷ []) []) }
{
    Ok(Answer::Done {
        reply: Reply::Value(i64::from(size)),
        items: one_item(pool, Item::Seen(0))?,
        updates: pool.updates(),
    })
}

/// The answer to a push.
pub(crate) fn push_answer(
    pool: &mut AnswerPool,
    capacity: u32,
    size: u32,
    value: i64,
) -> Result<Answer, NoMemory>
    requires { 1 + capacity < 2 ^ 32 }
    ensures { IfOk result (λ a. planned a ≡ Say (if nat_lt size capacity then ToldDone else ToldFull) (push_items capacity size)
        (push_updates capacity value size)) }
{
    if size < capacity {
        Ok(Answer::Done {
            reply: Reply::Done,
            items: one_item(pool, size_holds(Test::Eq, size))?,
            updates: pushed(pool, size, value)?,
        })
    } else {
        Ok(Answer::Done {
            reply: Reply::Full,
            items: one_item(pool, size_holds(Test::Ge, capacity))?,
            updates: pool.updates(),
        })
    }
}

// One more in the size, and the value behind the last.
fn pushed(pool: &mut AnswerPool, size: u32, value: i64) -> Result<Updates, NoMemory>
    requires { 1 + size < 2 ^ 32 }
    ensures { IfOk result (λ l. l.items ≡ (0, Add (pos 1) ∷ []) ∷ (suc size, Put value ∷ []) ∷ []) }
{
    let mut place = pool.update();
    place.push(Change::Put(value))?;
    let mut updates = one_update(pool, 0, Change::Add(1))?;
    updates.push((place_part(size), place))?;
    Ok(updates)
}

/// The answer to a pop, by the word of the last place where that is known.
pub(crate) fn pop_answer(
    pool: &mut AnswerPool,
    size: u32,
    last: Option<i64>,
) -> Result<Answer, NoMemory>
    ensures { IfOk result (λ a. planned a ≡ pop_plan size last) }
{
    if size == 0 {
        return absent(pool, size_holds(Test::Le, 0));
    }
    match last {
        None => Ok(Answer::Need(size)),
        Some(value) => {
            let mut items = one_item(pool, size_holds(Test::Eq, size))?;
            items.push(Item::Seen(size))?;
            Ok(Answer::Done {
                reply: Reply::Value(value),
                items,
                updates: one_update(pool, 0, Change::Add(-1))?,
            })
        }
    }
}
