//! The type of an array.
ghost use Rattle.std.specs.Prelude.{◌≡◌, ◌<◌, ◌+◌, ◌≤◌, ◌^◌, [], ◌∷◌, ℤ, List, pos, slice_index_or, length, take, drop, replicate, Some, IfOk, IsTrue};
ghost use Rattle.std.specs.Int.{w64};
ghost use Rattle.std.specs.Int.RustNames.{FitsSigned};
ghost use Rattle.sto_part.specs.declared.change.Change.TheVariants.{Put};
ghost use Rattle.sto_item.specs.declared.item.Item.TheVariants.{Seen};
ghost use Rattle.sto_model.specs.PlainReplies.{Absent as ToldAbsent, Value as ToldValue, Done as ToldDone};
ghost use Rattle.sto_model.specs.declared.shape.Shape.TheVariants.{Array};
ghost use Rattle.sto_type.specs.Known.{known};
ghost use Rattle.sto_type.specs.Plans.{IsSaid, planned};
ghost use Rattle.sto_type.specs.Saying.{IsSaidFrom};
ghost use Rattle.sto_array.specs.Arrayed.{array_meaning, array_rows, place_of, ArrayTakes, IsArray, IsArrayOf};
ghost use Rattle.sto_array.specs.ArrayedLaw.{array_lawful};

use std::alloc::Global;
use sto_counter::add_answer;
use sto_item::Item;
use sto_model::{Call, Operation, Reply, Rows, Shape, State};
use sto_part::{Change, Contents, Naming, NoMemory, PartWords};
use sto_type::{Answer, AnswerPool, Home, KnownParts, Said, TxType, one_item, one_update};

/// An array of so many numbers. Its contents are a part of one word for each.
#[derive(Drop)]
pub struct TArray {
    len: u32,
    first: i64,
    ghost few: { len < 2 ^ 32 },
    ghost fits: { FitsSigned w64 first },
}

impl TArray {
    /// An array that holds this number at each place at first.
    pub fn new(len: u32, first: i64) -> TArray
        ensures len { result.len ≡ len }
        ensures first { result.first ≡ first }
    {
        TArray { len, first }
    }
}

impl Naming for TArray {
    ghost sizes = { λ x. x.len ∷ [] };

    ghost valid = { λ sizes c. IsArrayOf sizes c };
}

impl TxType for TArray {
    ghost meaning = { λ x. array_meaning x.len x.first };

    ghost valid_is = { λ _ c. (λ h. h, λ h. h) };

    ghost lawful = { λ x. array_lawful x.len x.first x.fits };

    fn objects(&self) -> u32 {
        1
    }

    fn parts(&self) -> u32 {
        self.len
    }

    fn width(&self, part: u32) -> u32 {
        1
    }

    fn home(&self, part: u32) -> Home {
        Home {
            object: 0,
            local: part,
        }
    }

    fn takes(&self, call: &Call) -> bool {
        let _first = call.a;
        let _second = call.b;
        call.object == 0 && Shape::Array { len: 0, value: 0 }.takes_call(call)
    }

    fn opening(&self, alloc: Global) -> Result<Contents, NoMemory> {
        let mut contents = Contents::new(alloc, &[])?;
        for _ in 0..self.len {
            contents.push(one_word(alloc, self.first)?)?;
        }
        Ok(contents)
    }

    fn rows_at(&self, alloc: Global, contents: &Contents, first: u32) -> Result<State, NoMemory> {
        let rows = array_rows_at(alloc, contents, first, self.len)?;
        let mut state = State::new(alloc);
        state.push(rows)?;
        Ok(state)
    }

    fn plan(
        &self,
        alloc: Global,
        pool: &mut AnswerPool,
        call: &Call,
        cache: &KnownParts<'_>,
    ) -> Result<Answer, NoMemory> {
        answer(self, pool, call, 0, cache)
    }

    fn say(
        &self,
        alloc: Global,
        call: &Call,
        first: u32,
        cache: &KnownParts<'_>,
        said: &mut Said,
    ) -> Result<Option<u32>, NoMemory> {
        let answer = answer(self, &mut said.pool, call, first, cache)?;
        Ok(said.pour(answer))
    }
}

// The answer of an array whose parts are numbered from `first` on, in what is known and in what is answered.
fn answer(
    array: &TArray,
    pool: &mut AnswerPool,
    call: &Call,
    first: u32,
    cache: &KnownParts<'_>,
) -> Result<Answer, NoMemory>
    requires takes { ArrayTakes call.now }
    requires few { first + array.now.len < 2 ^ 32 }
    ensures { IfOk result (λ a. IsSaidFrom (array_meaning array.now.len array.now.first) first call.now (known cache.now) (planned a)) }
{
    match place_in(array.len, call.a) {
        None => outside(pool),
        Some(place) => {
            let part = first + place;
            match call.operation {
                Operation::Get => match cache.first_word(part) {
                    None => Ok(Answer::Need(part)),
                    Some(value) => get_answer(pool, part, value),
                },
                Operation::Set => set_answer(pool, part, call.b),
                Operation::Add => match cache.first_word(part) {
                    None => Ok(Answer::Need(part)),
                    Some(value) => add_answer(pool, part, call.b, value),
                },
                _ => outside(pool),
            }
        }
    }
}

/// The place of an index among so many; None where it is none of them.
pub fn place_in(len: u32, index: i64) -> Option<u32>
    ensures { result ≡ place_of len index }
{
    if 0 <= index && index < i64::from(len) {
        Some(index as u32)
    } else {
        None
    }
}

// The answer where the index is outside.
fn outside(pool: &mut AnswerPool) -> Result<Answer, NoMemory>
    ensures { IfOk result (IsSaid ToldAbsent [] []) }
{
    Ok(Answer::Done {
        reply: Reply::Absent,
        items: pool.items(),
        updates: pool.updates(),
    })
}

fn get_answer(pool: &mut AnswerPool, place: u32, value: i64) -> Result<Answer, NoMemory>
    ensures { IfOk result (IsSaid (ToldValue value) (Seen place ∷ []) []) }
{
    Ok(Answer::Done {
        reply: Reply::Value(value),
        items: one_item(pool, Item::Seen(place))?,
        updates: pool.updates(),
    })
}

pub(crate) fn set_answer(pool: &mut AnswerPool, place: u32, value: i64) -> Result<Answer, NoMemory>
    ensures { IfOk result (IsSaid ToldDone [] ((place, Put value ∷ []) ∷ [])) }
{
    Ok(Answer::Done {
        reply: Reply::Done,
        items: pool.items(),
        updates: one_update(pool, place, Change::Put(value))?,
    })
}

fn one_word(alloc: Global, word: i64) -> Result<PartWords, NoMemory>
    ensures { IfOk result (λ w. w.items ≡ word ∷ []) }
{
    let mut words = PartWords::new(alloc);
    words.push(word)?;
    Ok(words)
}

/// The rows of so many parts of one word each, from the first on: the keys are 0 and up.
pub fn array_rows_at(
    alloc: Global,
    contents: &Contents,
    first: u32,
    len: u32,
) -> Result<Rows, NoMemory>
    requires { IsArray len (take len (drop first contents.now.items)) }
    ensures { IfOk result (λ r. r.items ≡ array_rows 0 (take len (drop first contents.now.items))) }
{
    let _parts = contents.parts();
    let mut rows = Rows::new(alloc);
    for place in 0..len {
        rows.push((i64::from(place), contents.word(first + place, 0)))?;
    }
    Ok(rows)
}
