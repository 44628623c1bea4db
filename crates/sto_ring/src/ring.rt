//! The type of a ring.
ghost use Rattle.std.specs.Prelude.{◌<◌, ◌≤◌, ◌+◌, ◌^◌, [], ◌∷◌, ◌≡◌};
ghost use Rattle.sto_ring.specs.Ringed.{ring_meaning, IsRingOf};
ghost use Rattle.sto_ring.specs.RingedLaw.{ring_lawful};

use crate::ends::number_in;
use crate::plan::{answer, is_taken};
use crate::rows::{size_of, values_along};
use std::alloc::Global;
use sto_container::is_live;
use sto_model::{Call, State};
use sto_part::{Contents, Naming, NoMemory, PartWords};
use sto_type::{Answer, AnswerPool, Home, KnownParts, TxType, rows_of};

/// A ring of so many places for values. Its contents are a part for the head, one for the tail, and one for each place.
#[derive(Drop)]
pub struct TRing {
    places: u32,
    ghost few: { places + 2 < 2 ^ 32 },
    ghost some: { 1 ≤ places },
}

impl TRing {
    /// A ring with room for so many values.
    pub fn new(places: u32) -> TRing
        requires few { places + 2 < 2 ^ 32 }
        requires some { 1 ≤ places }
        ensures { result.places ≡ places }
    {
        TRing { places }
    }
}

impl Naming for TRing {
    ghost sizes = { λ x. x.places ∷ [] };

    ghost valid = { λ sizes c. IsRingOf sizes c };
}

impl TxType for TRing {
    ghost meaning = { λ x. ring_meaning x.places };

    ghost valid_is = { λ _ c. (λ h. h, λ h. h) };

    ghost lawful = { λ x. ring_lawful x.places x.few x.some };

    fn objects(&self) -> u32 {
        1
    }

    fn parts(&self) -> u32 {
        self.places + 2
    }

    fn width(&self, part: u32) -> u32 {
        if part < 2 { 1 } else { 2 }
    }

    fn home(&self, part: u32) -> Home {
        Home {
            object: 0,
            local: part,
        }
    }

    fn takes(&self, call: &Call) -> bool {
        let _first = call.a;
        let _second = call.b;
        call.object == 0 && call.c == 0 && is_taken(call.operation)
    }

    fn opening(&self, alloc: Global) -> Result<Contents, NoMemory> {
        let mut contents = Contents::new(alloc, &[1, 1])?;
        for _ in 0..self.places {
            contents.push(PartWords::filled(alloc, 0, 2)?)?;
        }
        Ok(contents)
    }

    fn rows_at(&self, alloc: Global, contents: &Contents, first: u32) -> Result<State, NoMemory> {
        let _parts = contents.parts();
        let head = number_in(self.places, contents.word(first, 0));
        let tail = number_in(self.places, contents.word(first + 1, 0));
        let live = is_live(contents.get(first + (head + 2)).as_slice());
        let size = size_of(self.places, head, tail, live);
        let values = values_along(alloc, contents, first, self.places, head, size)?;
        let rows = rows_of(alloc, values.as_slice())?;
        let mut state = State::new(alloc);
        state.push(rows)?;
        Ok(state)
    }

    fn plan(
        &self,
        alloc: Global,
        pool: &mut AnswerPool,
        call: &Call,
        cache: &KnownParts<'_>,
    ) -> Result<Answer, NoMemory> {
        answer(pool, self.places, call, cache)
    }
}
