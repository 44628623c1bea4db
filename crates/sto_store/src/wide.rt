//! The objects that may have more than one part, as one type.
ghost use Rattle.sto_type.specs.JoinedLaw.{joined_lawful, all_lawful};
ghost use Rattle.sto_type.specs.Sizes.{IsValidBoth-is, IsValidMany-is};
ghost use Rattle.sto_array.specs.ArrayedLaw.{array_lawful};
ghost use Rattle.sto_hash.specs.HashedLaw.{hash_lawful};
ghost use Rattle.sto_tree.specs.Lawful.{tree_is_lawful};
ghost use Rattle.sto_vector.specs.VectoredLaw.{vector_lawful};

use crate::kinds::{Arrays, Hashes, Sized, Trees, Vectors};
use std::alloc::Global;
use sto_array::TArray;
use sto_hash::THash;
use sto_item::Item;
use sto_model::{Call, State};
use sto_part::{Contents, Naming, NoMemory, Pred};
use sto_tree::TTree;
use sto_type::{Answer, AnswerPool, Both, Home, KnownParts, Said, TxType};
use sto_vector::TVector;

type Kinds = Both<Arrays, Both<Hashes, Sized>>;

/// Arrays, hash tables, trees and vectors, in this order: the objects that may have more than one part.
///
/// They are a type of their own since all that is proved of joined kinds names each kind below twice at each join.
pub struct Wide {
    pub kinds: Both<Arrays, Both<Hashes, Sized>>,
}

impl Drop for Wide {
    fn drop(self) {
        let Wide { kinds: _kinds } = self;
    }
}

impl Naming for Wide {
    ghost sizes = { λ x. ⟦<Kinds as Naming>⟧.sizes x.kinds };

    ghost valid = { ⟦<Kinds as Naming>⟧.valid };
}

impl TxType for Wide {
    ghost meaning = { λ x. ⟦<Kinds as TxType>⟧.meaning x.kinds };

    ghost valid_is = { λ x c.
        IsValidBoth-is ⟦<Arrays as Naming>⟧.valid ⟦<Both<Hashes, Sized> as Naming>⟧.valid _ _ _ (⟦<Arrays as Naming>⟧.sizes x.kinds.first)
        (⟦<Both<Hashes, Sized> as Naming>⟧.sizes x.kinds.second) c
        (IsValidMany-is ⟦<TArray as TxType>⟧.meaning ⟦<TArray as Naming>⟧.sizes ⟦<TArray as Naming>⟧.valid (λ _ d. (λ h. h, λ h. h))
        x.kinds.first)
        (λ c. IsValidBoth-is ⟦<Hashes as Naming>⟧.valid ⟦<Sized as Naming>⟧.valid _ _ _ (⟦<Hashes as Naming>⟧.sizes x.kinds.second.first)
        (⟦<Sized as Naming>⟧.sizes x.kinds.second.second) c (IsValidMany-is ⟦<THash as TxType>⟧.meaning ⟦<THash as Naming>⟧.sizes
        ⟦<THash as Naming>⟧.valid (λ _ d. (λ h. h, λ h. h)) x.kinds.second.first)
        (λ c. IsValidBoth-is ⟦<Trees as Naming>⟧.valid ⟦<Vectors as Naming>⟧.valid _ _ _
        (⟦<Trees as Naming>⟧.sizes x.kinds.second.second.first) (⟦<Vectors as Naming>⟧.sizes x.kinds.second.second.second) c
        (IsValidMany-is ⟦<TTree as TxType>⟧.meaning ⟦<TTree as Naming>⟧.sizes ⟦<TTree as Naming>⟧.valid (λ _ d. (λ h. h, λ h. h))
        x.kinds.second.second.first)
        (IsValidMany-is ⟦<TVector as TxType>⟧.meaning ⟦<TVector as Naming>⟧.sizes ⟦<TVector as Naming>⟧.valid (λ _ d. (λ h. h, λ h. h))
        x.kinds.second.second.second))) };

    ghost lawful = { λ x.
        joined_lawful _ _ (all_lawful _ (λ a. array_lawful a.len a.first a.fits) x.kinds.first)
        (joined_lawful _ _ (all_lawful _ (λ h. hash_lawful h.buckets h.places h.some) x.kinds.second.first)
        (joined_lawful _ _ (all_lawful _ (λ t. tree_is_lawful t.leaves t.some t.few) x.kinds.second.second.first)
        (all_lawful _ (λ v. vector_lawful v.capacity v.few) x.kinds.second.second.second))) };

    fn objects(&self) -> u32 {
        self.kinds.objects()
    }

    fn parts(&self) -> u32 {
        self.kinds.parts()
    }

    fn width(&self, part: u32) -> u32 {
        self.kinds.width(part)
    }

    fn home(&self, part: u32) -> Home {
        self.kinds.home(part)
    }

    fn takes(&self, call: &Call) -> bool {
        self.kinds.takes(call)
    }

    fn opening(&self, alloc: Global) -> Result<Contents, NoMemory> {
        self.kinds.opening(alloc)
    }

    fn rows_at(&self, alloc: Global, contents: &Contents, first: u32) -> Result<State, NoMemory> {
        self.kinds.rows_at(alloc, contents, first)
    }

    fn plan(
        &self,
        alloc: Global,
        pool: &mut AnswerPool,
        call: &Call,
        cache: &KnownParts<'_>,
    ) -> Result<Answer, NoMemory> {
        self.kinds.plan(alloc, pool, call, cache)
    }

    fn say(
        &self,
        alloc: Global,
        call: &Call,
        first: u32,
        cache: &KnownParts<'_>,
        said: &mut Said,
    ) -> Result<Option<u32>, NoMemory> {
        self.kinds.say(alloc, call, first, cache, said)
    }

    fn guard(&self, item: &Item) -> u32 {
        self.kinds.guard(item)
    }

    fn check(&self, pred: &Pred, value: i64) -> bool {
        self.kinds.check(pred, value)
    }
}
