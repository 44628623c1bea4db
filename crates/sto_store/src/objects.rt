//! The objects of a file, as one type.
ghost use Rattle.std.specs.Prelude.{◌≡◌, [], ◌∷◌, IfOk};
ghost use Rattle.std.proofs.Common.{lit≤};
ghost use Rattle.sto_part.specs.Codes.{IsSignedCode};
ghost use Rattle.sto_type.specs.JoinedLaw.{joined_lawful, all_lawful};
ghost use Rattle.sto_type.specs.Sizes.{IsValidBoth-is, IsValidMany-is};
ghost use Rattle.sto_box.specs.BoxedLaw.{box_lawful, box_opened};
ghost use Rattle.sto_counter.specs.CountedLaw.{counter_lawful};
ghost use Rattle.sto_store.specs.contracts.wide.WideTxType.TheImpl.Laws.{valid_is-law as wide_valid_is, lawful-law as wide_lawful};

use crate::kinds::{Boxes, Counters};
use crate::measure::widths_of;
use crate::wide::Wide;
use std::alloc::Global;
use sto_box::TBox;
use sto_counter::TCounter;
use sto_item::Item;
use sto_model::{Call, State};
use sto_part::{Contents, List, Naming, NoMemory, Pred};
use sto_type::{Answer, AnswerPool, Both, Home, KnownParts, Said, TxType};

type AllKinds = Both<Boxes, Both<Counters, Wide>>;

/// Boxes, counters, arrays, hash tables, trees and vectors, in this order.
///
/// They have a name of their own: what is proved of a run names this type, and not how its kinds are joined.
pub struct Objects {
    pub store: Both<Boxes, Both<Counters, Wide>>,
    // How many words each part has: an attempt asks it at each word that it reads.
    widths: List<u32>,
    ghost measured: { widths.items ≡ (⟦<AllKinds as TxType>⟧.meaning store).widths },
}

impl Objects {
    /// The objects of a store.
    pub fn new(alloc: Global, store: Both<Boxes, Both<Counters, Wide>>) -> Result<Objects, NoMemory>
        ensures { IfOk result (λ o. o.store ≡ store) }
    {
        let widths = widths_of(alloc, &store)?;
        Ok(Objects { store, widths })
    }
}

impl Drop for Objects {
    fn drop(self) {
        let Objects {
            store: _store,
            widths: _widths,
        } = self;
    }
}

impl Naming for Objects {
    ghost sizes = { λ x. ⟦<AllKinds as Naming>⟧.sizes x.store };

    ghost valid = { ⟦<AllKinds as Naming>⟧.valid };
}

impl TxType for Objects {
    ghost meaning = { λ x. ⟦<AllKinds as TxType>⟧.meaning x.store };

    ghost valid_is = { λ x c.
        IsValidBoth-is ⟦<Boxes as Naming>⟧.valid ⟦<Both<Counters, Wide> as Naming>⟧.valid _ _ _ (⟦<Boxes as Naming>⟧.sizes x.store.first)
        (⟦<Both<Counters, Wide> as Naming>⟧.sizes x.store.second) c
        (IsValidMany-is ⟦<TBox<i64> as TxType>⟧.meaning ⟦<TBox<i64> as Naming>⟧.sizes ⟦<TBox<i64> as Naming>⟧.valid
        (λ _ d. (λ h. h, λ h. h)) x.store.first)
        (λ c. IsValidBoth-is ⟦<Counters as Naming>⟧.valid ⟦<Wide as Naming>⟧.valid _ _ _ (⟦<Counters as Naming>⟧.sizes x.store.second.first)
        (⟦<Wide as Naming>⟧.sizes x.store.second.second) c (IsValidMany-is ⟦<TCounter as TxType>⟧.meaning ⟦<TCounter as Naming>⟧.sizes
        ⟦<TCounter as Naming>⟧.valid (λ _ d. (λ h. h, λ h. h)) x.store.second.first)
        (wide_valid_is x.store.second.second)) };

    ghost lawful = { λ x.
        joined_lawful _ _ (all_lawful _ (λ b. box_lawful 1 IsSignedCode (b.first ∷ []) (lit≤ tt, lit≤ tt)
        (box_opened 1 IsSignedCode b.first b.second (lit≤ tt, lit≤ tt) b.first_fits b.second_fits b.code)) x.store.first)
        (joined_lawful _ _ (all_lawful _ (λ k. counter_lawful k.first k.fits) x.store.second.first)
        (wide_lawful x.store.second.second)) };

    fn objects(&self) -> u32 {
        self.store.objects()
    }

    fn parts(&self) -> u32 {
        self.store.parts()
    }

    fn width(&self, part: u32) -> u32 {
        *self.widths.get(part)
    }

    fn home(&self, part: u32) -> Home {
        self.store.home(part)
    }

    fn takes(&self, call: &Call) -> bool {
        self.store.takes(call)
    }

    fn opening(&self, alloc: Global) -> Result<Contents, NoMemory> {
        self.store.opening(alloc)
    }

    fn rows_at(&self, alloc: Global, contents: &Contents, first: u32) -> Result<State, NoMemory> {
        self.store.rows_at(alloc, contents, first)
    }

    fn plan(
        &self,
        alloc: Global,
        pool: &mut AnswerPool,
        call: &Call,
        cache: &KnownParts<'_>,
    ) -> Result<Answer, NoMemory> {
        self.store.plan(alloc, pool, call, cache)
    }

    fn say(
        &self,
        alloc: Global,
        call: &Call,
        first: u32,
        cache: &KnownParts<'_>,
        said: &mut Said,
    ) -> Result<Option<u32>, NoMemory> {
        self.store.say(alloc, call, first, cache, said)
    }

    fn guard(&self, item: &Item) -> u32 {
        self.store.guard(item)
    }

    fn check(&self, pred: &Pred, value: i64) -> bool {
        self.store.check(pred, value)
    }
}
