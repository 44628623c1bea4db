//! The type of a map.
ghost use Rattle.std.specs.Prelude.{◌≡◌, ◌<◌, ◌≤◌, ◌+◌, ◌*◌, ◌^◌, [], ◌∷◌};
ghost use Rattle.sto_map.specs.Sized.{meaning_by, type_lawful, IsMapOf};

use crate::answering::{answer, is_taken};
use crate::listing::listed;
use crate::mix::{home_of, stripe_of};
use crate::opening::opened;
use crate::size::Size;
use std::alloc::Global;
use sto_model::{Call, State};
use sto_part::{Contents, Naming, NoMemory};
use sto_type::{Answer, AnswerPool, Home, KnownParts, TxType};

/// A map of keys to values. Its contents are a part for the room of each stripe, and for each place one for its key, one that counts the
/// keys that passed over it, and one for its value.
#[derive(Drop)]
pub struct TMap {
    keys: u32,
    places: u32,
    stripes: u32,
    seed: u64,
    ghost enough: { keys ≤ places },
    ghost some: { 0 < places },
    ghost striped: { 0 < stripes },
    ghost few: { stripes + 3 * places < 2 ^ 32 },
}

impl TMap {
    /// A map that may hold so many keys, in so many places and with room in so many stripes. The seed is mixed into the home of each key.
    pub fn new(keys: u32, places: u32, stripes: u32, seed: u64) -> TMap
        requires enough { keys ≤ places }
        requires some { 0 < places }
        requires striped { 0 < stripes }
        requires few { stripes + 3 * places < 2 ^ 32 }
        ensures keys { result.keys ≡ keys }
        ensures places { result.places ≡ places }
        ensures stripes { result.stripes ≡ stripes }
        ensures seed { result.seed ≡ seed }
    {
        TMap {
            keys,
            places,
            stripes,
            seed,
        }
    }

    fn size(&self) -> Size
        ensures places { result.places ≡ self.now.places }
        ensures stripes { result.stripes ≡ self.now.stripes }
    {
        Size {
            places: self.places,
            stripes: self.stripes,
        }
    }
}

impl Naming for TMap {
    ghost sizes = { λ x. x.keys ∷ x.places ∷ x.stripes ∷ x.seed ∷ [] };

    ghost valid = { λ sizes c. IsMapOf sizes c };
}

impl TxType for TMap {
    ghost meaning = { λ x. meaning_by x.keys x.places x.stripes x.seed };

    ghost valid_is = { λ _ c. (λ h. h, λ h. h) };

    ghost lawful = { λ x. type_lawful x.keys x.places x.stripes x.seed x.enough x.some x.striped x.few };

    fn objects(&self) -> u32 {
        1
    }

    fn parts(&self) -> u32 {
        self.stripes + 3 * self.places
    }

    fn width(&self, part: u32) -> u32 {
        if part < self.stripes {
            return 1;
        }
        if part - self.stripes < self.places {
            return 2;
        }
        1
    }

    fn home(&self, part: u32) -> Home {
        Home {
            object: 0,
            local: part,
        }
    }

    fn takes(&self, call: &Call) -> bool {
        let _first = call.a;
        let _second = call.b;
        call.object == 0 && call.c == 0 && is_taken(call.operation)
    }

    fn opening(&self, alloc: Global) -> Result<Contents, NoMemory> {
        opened(alloc, self.keys, self.places, self.stripes)
    }

    fn rows_at(&self, alloc: Global, contents: &Contents, first: u32) -> Result<State, NoMemory> {
        let size = self.size();
        let rows = listed(alloc, contents, first, &size)?;
        let mut state = State::new(alloc);
        state.push(rows)?;
        Ok(state)
    }

    fn plan(
        &self,
        alloc: Global,
        pool: &mut AnswerPool,
        call: &Call,
        cache: &KnownParts<'_>,
    ) -> Result<Answer, NoMemory> {
        let size = self.size();
        let home = home_of(self.places, self.seed, call.a);
        let stripe = stripe_of(self.stripes, self.seed, call.a);
        answer(pool, &size, home, stripe, call, cache)
    }
}
