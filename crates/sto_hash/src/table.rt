//! The type of a hash table.
ghost use Rattle.std.specs.Prelude.{◌≡◌, ◌<◌, ◌+◌, ◌*◌, ◌^◌, [], ◌∷◌};
ghost use Rattle.sto_model.specs.Objects.{takes};
ghost use Rattle.sto_model.specs.declared.shape.Shape.TheVariants.{Hash};
ghost use Rattle.sto_hash.specs.Hashed.{hash_meaning, IsHashOf};
ghost use Rattle.sto_hash.specs.HashedLaw.{hash_lawful};

use crate::len::plan_len;
use crate::plan::{plan_get, plan_has, plan_put, plan_remove};
use crate::rows::table_rows;
use std::alloc::Global;
use sto_model::{Call, Operation, Shape, State};
use sto_part::{Contents, List, Naming, NoMemory};
use sto_type::{Answer, AnswerPool, Home, KnownParts, TxType};

/// A hash table of so many buckets, each with so many places. The contents of a bucket are a part of two words for each place,
/// whether it is present and its key, and after it a part of one word for the value of each place.
#[derive(Drop)]
pub struct THash {
    buckets: u32,
    places: u32,
    ghost some: { 0 < buckets },
    ghost few: { buckets * (1 + places) < 2 ^ 32 },
    ghost words: { 2 * places < 2 ^ 32 },
}

impl THash {
    /// A table without keys.
    pub fn new(buckets: u32, places: u32) -> THash
        requires some { 0 < buckets }
        requires few { buckets * (1 + places) < 2 ^ 32 }
        requires words { 2 * places < 2 ^ 32 }
        ensures buckets { result.buckets ≡ buckets }
        ensures places { result.places ≡ places }
    {
        THash { buckets, places }
    }
}

impl Naming for THash {
    ghost sizes = { λ x. x.buckets ∷ x.places ∷ [] };

    ghost valid = { λ sizes c. IsHashOf sizes c };
}

impl TxType for THash {
    ghost meaning = { λ x. hash_meaning x.buckets x.places };

    ghost valid_is = { λ _ c. (λ h. h, λ h. h) };

    ghost lawful = { λ x. hash_lawful x.buckets x.places x.some };

    fn objects(&self) -> u32 {
        1
    }

    fn parts(&self) -> u32 {
        self.buckets * (1 + self.places)
    }

    fn width(&self, part: u32) -> u32 {
        if part % (1 + self.places) == 0 {
            2 * self.places
        } else {
            1
        }
    }

    fn home(&self, part: u32) -> Home {
        Home {
            object: 0,
            local: part,
        }
    }

    fn takes(&self, call: &Call) -> bool {
        let _first = call.a;
        let _second = call.b;
        call.object == 0 && shape_with(self.buckets).takes_call(call)
    }

    fn opening(&self, alloc: Global) -> Result<Contents, NoMemory> {
        let mut widths = List::new(alloc);
        for part in 0..self.parts() {
            widths.push(self.width(part))?;
        }
        Contents::new(alloc, widths.as_slice())
    }

    fn rows_at(&self, alloc: Global, contents: &Contents, first: u32) -> Result<State, NoMemory> {
        let rows = table_rows(alloc, contents, first, self.buckets, self.places)?;
        let mut state = State::new(alloc);
        state.push(rows)?;
        Ok(state)
    }

    fn plan(
        &self,
        alloc: Global,
        pool: &mut AnswerPool,
        call: &Call,
        cache: &KnownParts<'_>,
    ) -> Result<Answer, NoMemory> {
        match call.operation {
            Operation::Get => plan_get(pool, self.buckets, self.places, call, cache),
            Operation::Put => plan_put(pool, self.buckets, self.places, call, cache),
            Operation::Remove => plan_remove(pool, self.buckets, self.places, call, cache),
            Operation::Has => plan_has(pool, self.buckets, self.places, call, cache),
            Operation::Len => plan_len(pool, self.buckets, self.places, call, cache),
            _ => unreachable!(),
        }
    }
}

// What is taken hangs on the number of buckets alone.
fn shape_with(buckets: u32) -> Shape
    ensures { result ≡ Hash buckets 0 }
{
    Shape::Hash { buckets, places: 0 }
}
