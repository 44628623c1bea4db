//! The type of a counter.
ghost use Rattle.std.specs.Prelude.{◌≡◌, [], ◌∷◌, map, pos, IfOk, IsTrue};
ghost use Rattle.std.specs.Int.{w64};
ghost use Rattle.std.specs.Int.RustNames.{FitsSigned};
ghost use Rattle.sto_item.specs.Pending.{renumbered};
ghost use Rattle.sto_model.specs.Objects.{effect_of, compared};
ghost use Rattle.sto_model.specs.PlainReplies.{Flag};
ghost use Rattle.sto_model.specs.declared.shape.Shape.TheVariants.{Counter};
ghost use Rattle.sto_type.specs.Joined.{item_moved};
ghost use Rattle.sto_type.specs.Plans.{IsSaid};
ghost use Rattle.sto_counter.specs.Counted.{counter_meaning, counter_items, counter_updates, only_row, test_items, IsCounter};
ghost use Rattle.sto_counter.specs.CountedLaw.{counter_lawful};

use crate::sums::{add_answer, take_answer, word_pred};
use std::alloc::Global;
use sto_item::Item;
use sto_model::{Call, Operation, Reply, Rows, Shape, State, test_at};
use sto_part::{Contents, Naming, NoMemory, PartWords, Test, compare, negate};
use sto_type::{Answer, AnswerPool, Home, KnownParts, Said, TxType, one_item};

/// A counter. Its contents are one part of one word.
#[derive(Drop)]
pub struct TCounter {
    first: i64,
    ghost fits: { FitsSigned w64 first },
}

impl TCounter {
    /// A counter with this number at first.
    pub fn new(first: i64) -> TCounter
        ensures { result.first ≡ first }
    {
        TCounter { first }
    }
}

impl Naming for TCounter {
    ghost sizes = { λ _. [] };

    ghost valid = { λ _ c. IsCounter c };
}

impl TxType for TCounter {
    ghost meaning = { λ x. counter_meaning x.first };

    ghost valid_is = { λ _ c. (λ h. h, λ h. h) };

    ghost lawful = { λ x. counter_lawful x.first x.fits };

    fn objects(&self) -> u32 {
        1
    }

    fn parts(&self) -> u32 {
        1
    }

    fn width(&self, part: u32) -> u32 {
        1
    }

    fn home(&self, part: u32) -> Home {
        Home {
            object: 0,
            local: 0,
        }
    }

    fn takes(&self, call: &Call) -> bool {
        let _first = call.a;
        let _second = call.b;
        call.object == 0 && Shape::Counter(0).takes_call(call)
    }

    fn opening(&self, alloc: Global) -> Result<Contents, NoMemory> {
        let mut words = PartWords::new(alloc);
        words.push(self.first)?;
        let mut contents = Contents::new(alloc, &[])?;
        contents.push(words)?;
        Ok(contents)
    }

    fn rows_at(&self, alloc: Global, contents: &Contents, first: u32) -> Result<State, NoMemory> {
        let mut rows = Rows::new(alloc);
        rows.push((0, contents.word(first, 0)))?;
        let mut state = State::new(alloc);
        state.push(rows)?;
        Ok(state)
    }

    fn plan(
        &self,
        alloc: Global,
        pool: &mut AnswerPool,
        call: &Call,
        cache: &KnownParts<'_>,
    ) -> Result<Answer, NoMemory> {
        match cache.get(0) {
            None => Ok(Answer::Need(0)),
            Some(words) => answer(pool, 0, call, words[0]),
        }
    }

    fn say(
        &self,
        alloc: Global,
        call: &Call,
        first: u32,
        cache: &KnownParts<'_>,
        said: &mut Said,
    ) -> Result<Option<u32>, NoMemory> {
        match cache.get(first) {
            None => Ok(Some(first)),
            Some(words) => {
                let answer = answer(&mut said.pool, first, call, words[0])?;
                Ok(said.pour(answer))
            }
        }
    }
}

// The answer of the counter whose part has this number, where its value is known.
fn answer(pool: &mut AnswerPool, part: u32, call: &Call, value: i64) -> Result<Answer, NoMemory>
    ensures { IfOk result (IsSaid (effect_of (Counter (pos 0)) call.now.operation call.now.a call.now.b (only_row value)).reply
        (map (item_moved part) (counter_items call.now.operation call.now.a call.now.b value))
        (map (renumbered part) (counter_updates call.now.operation call.now.a value))) }
{
    match call.operation {
        Operation::Get => Ok(Answer::Done {
            reply: Reply::Value(value),
            items: one_item(pool, Item::Seen(part))?,
            updates: pool.updates(),
        }),
        Operation::Add => add_answer(pool, part, call.a, value),
        Operation::Test => tested(pool, part, test_at(call.a), call.b, value),
        Operation::Take => take_answer(pool, part, call.a, value),
        _ => Ok(Answer::Done {
            reply: Reply::Absent,
            items: pool.items(),
            updates: pool.updates(),
        }),
    }
}

/// The answer to a test with a number of the one word of part 0, which has this value.
pub fn test_answer(
    pool: &mut AnswerPool,
    test: Option<Test>,
    bound: i64,
    value: i64,
) -> Result<Answer, NoMemory>
    ensures { IfOk result (IsSaid (Flag (compared test value bound)) (test_items test bound value) []) }
{
    tested(pool, 0, test, bound, value)
}

// The same of a part of one word.
fn tested(
    pool: &mut AnswerPool,
    part: u32,
    test: Option<Test>,
    bound: i64,
    value: i64,
) -> Result<Answer, NoMemory>
    ensures { IfOk result (IsSaid (Flag (compared test value bound)) (map (item_moved part) (test_items test bound value)) []) }
{
    match test {
        Some(test) => {
            let flag = compare(test, value, bound);
            let seen = if flag { test } else { negate(test) };
            Ok(Answer::Done {
                reply: Reply::Flag(flag),
                items: one_item(pool, Item::Holds(word_pred(part, seen, bound)))?,
                updates: pool.updates(),
            })
        }
        None => Ok(Answer::Done {
            reply: Reply::Flag(false),
            items: pool.items(),
            updates: pool.updates(),
        }),
    }
}
