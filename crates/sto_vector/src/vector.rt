//! The type of a vector.
ghost use Rattle.std.specs.Prelude.{◌≡◌, ◌<◌, ◌≤◌, ◌+◌, ◌^◌, [], ◌∷◌, pos, IfOk};
ghost use Rattle.sto_type.specs.Known.{known, word_known};
ghost use Rattle.sto_type.specs.Plans.{planned};
ghost use Rattle.sto_array.specs.Arrayed.{place_of};
ghost use Rattle.sto_vector.specs.Vectored.{vector_meaning, IsSize, IsVectorOf};
ghost use Rattle.sto_vector.specs.VectoredLaw.{vector_lawful};
ghost use Rattle.sto_vector.specs.VectoredPlans.{first_plan, vector_plan};

use crate::answers::{
    get_answer, len_answer, outside, place_part, pop_answer, push_answer, size_answer,
};
use std::alloc::Global;
use sto_array::{array_rows_at, place_in};
use sto_model::{Call, Operation, Shape, State};
use sto_part::{Contents, Naming, NoMemory, PartWords};
use sto_type::{Answer, AnswerPool, Home, KnownParts, TxType};

/// A vector without values. Its contents are a part of one word for the size, and one for each place.
#[derive(Drop)]
pub struct TVector {
    capacity: u32,
    ghost few: { 1 + capacity < 2 ^ 32 },
}

impl TVector {
    /// A vector without values, which has room for so many, 2^32 - 2 at most.
    pub fn new(capacity: u32) -> TVector
        requires { 1 + capacity < 2 ^ 32 }
        ensures { result.capacity ≡ capacity }
    {
        TVector { capacity }
    }
}

impl Naming for TVector {
    ghost sizes = { λ x. x.capacity ∷ [] };

    ghost valid = { λ sizes c. IsVectorOf sizes c };
}

impl TxType for TVector {
    ghost meaning = { λ x. vector_meaning x.capacity };

    ghost valid_is = { λ _ c. (λ h. h, λ h. h) };

    ghost lawful = { λ x. vector_lawful x.capacity x.few };

    fn objects(&self) -> u32 {
        1
    }

    fn parts(&self) -> u32 {
        1 + self.capacity
    }

    fn width(&self, part: u32) -> u32 {
        1
    }

    fn home(&self, part: u32) -> Home {
        Home {
            object: 0,
            local: part,
        }
    }

    fn takes(&self, call: &Call) -> bool {
        let _first = call.a;
        let _second = call.b;
        call.object == 0 && Shape::Vector { capacity: 0 }.takes_call(call)
    }

    fn opening(&self, alloc: Global) -> Result<Contents, NoMemory> {
        let mut contents = Contents::new(alloc, &[])?;
        for _ in 0..1 + self.capacity {
            contents.push(zero(alloc)?)?;
        }
        Ok(contents)
    }

    fn rows_at(&self, alloc: Global, contents: &Contents, first: u32) -> Result<State, NoMemory> {
        let _parts = contents.parts();
        let size = size_in(self.capacity, contents.word(first, 0));
        let rows = array_rows_at(alloc, contents, first + 1, size)?;
        let mut state = State::new(alloc);
        state.push(rows)?;
        Ok(state)
    }

    fn plan(
        &self,
        alloc: Global,
        pool: &mut AnswerPool,
        call: &Call,
        cache: &KnownParts<'_>,
    ) -> Result<Answer, NoMemory> {
        match cache.first_word(0) {
            None => first_answer(pool, self.capacity, call),
            Some(word) => answer(
                pool,
                self.capacity,
                call,
                size_in(self.capacity, word),
                cache,
            ),
        }
    }
}

fn zero(alloc: Global) -> Result<PartWords, NoMemory>
    ensures { IfOk result (λ w. w.items ≡ pos 0 ∷ []) }
{
    let mut words = PartWords::new(alloc);
    words.push(0)?;
    Ok(words)
}

// The size that a word says.
fn size_in(capacity: u32, word: i64) -> u32
    requires { IsSize capacity word }
    ensures is { pos result ≡ word }
    ensures range { result ≤ capacity }
{
    word as u32
}

// The answer where the size is not known.
fn first_answer(pool: &mut AnswerPool, capacity: u32, call: &Call) -> Result<Answer, NoMemory>
    ensures { IfOk result (λ a. planned a ≡ first_plan call.now.operation (place_of capacity call.now.a)) }
{
    match (call.operation, place_in(capacity, call.a)) {
        (Operation::Get, None) => outside(pool),
        _ => Ok(Answer::Need(0)),
    }
}

// The answer with this size.
fn answer(
    pool: &mut AnswerPool,
    capacity: u32,
    call: &Call,
    size: u32,
    cache: &KnownParts<'_>,
) -> Result<Answer, NoMemory>
    requires few { 1 + capacity < 2 ^ 32 }
    requires range { size ≤ capacity }
    ensures { IfOk result (λ a. planned a ≡ vector_plan capacity call.now.operation (place_of capacity call.now.a) call.now.a
        call.now.b size (λ p. word_known (known cache.now p))) }
{
    match call.operation {
        Operation::Get => match place_in(capacity, call.a) {
            None => outside(pool),
            Some(place) => get_answer(pool, place, size, cache.first_word(place_part(place))),
        },
        Operation::Test => size_answer(pool, call.a, call.b, size),
        Operation::Len => len_answer(pool, size),
        Operation::Push => push_answer(pool, capacity, size, call.a),
        Operation::Pop => pop_answer(pool, size, cache.first_word(size)),
        _ => outside(pool),
    }
}
