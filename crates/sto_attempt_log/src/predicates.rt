//! The predicates that an attempt has observed, part by part.
ghost use Rattle.std.specs.Prelude.{◌≡◌, IfOk, List, Bool, true, nat_eq, if◌then◌else◌};
ghost use Rattle.std.specs.List.{list_all};
ghost use Rattle.std.specs.List.Sorted.{IsNonDecreasingBy};
ghost use Rattle.sto_part.specs.declared.pred.Pred.{Pred};
ghost use Rattle.sto_part.specs.Preds.{holds_of};
ghost use Rattle.sto_core.specs.Reads.{value_read};
ghost use Rattle.sto_attempt_log.specs.CommitPhases.{reads_of, is_so};
ghost use Rattle.sto_attempt_log.specs.Predicates.{preds_in, ArePredsOf};
ghost use Rattle.sto_item.specs.declared.item.Item.{Item};

use crate::loaded_words::LoadedWords;
use std::alloc::{AllocError, Global};
use std::marker::Model;
use sto_item::Item;
use sto_part::{NoMemory, Pred};
use sto_type::TxType;

/// Predicates in rising order of their parts, so those on a part are found in logarithmic time.
#[derive(Drop)]
pub struct Predicates {
    list: Vec<Pred>,
}

impl Model for Predicates {
    ghost use Rattle.std.specs.Prelude.{List};
    ghost use Rattle.std.specs.List.Sorted.{IsNonDecreasingBy};
    ghost use Rattle.sto_part.specs.declared.pred.Pred.{Pred};

    ghost Value = { List Pred };

    ghost view = { λ p. p.list.items };

    ghost invariant = { λ p. IsNonDecreasingBy (λ q. q.part) p.list.items };
}

impl Predicates {
    /// Those among items.
    pub(crate) fn among(alloc: Global, items: &[Item]) -> Result<Predicates, NoMemory>
        ensures { IfOk result (λ ps. ArePredsOf items.now ps) }
    {
        match sorted_preds(alloc, items) {
            Ok(list) => Ok(Predicates { list }),
            Err(AllocError) => Err(NoMemory),
        }
    }

    /// Whether the type finds those on a part to be true of the words that were read.
    pub(crate) fn are_true<T: TxType>(&self, ty: &T, loaded_words: &LoadedWords, part: u32) -> bool
        ensures { (items : List Item) → ArePredsOf items self.now → result ≡ list_all (is_so part loaded_words.now.items) items }
    {
        all_true(ty, on_part(self.list.as_slice(), part), loaded_words, part)
    }
}

// Whether the type finds predicates on a part to be true of the words that were read.
fn all_true<T: TxType>(ty: &T, preds: &[Pred], loaded_words: &LoadedWords, part: u32) -> bool
    ensures { result ≡ list_all (λ q. holds_of q (value_read (reads_of loaded_words.now.items part) q.word)) preds.now }
{
    preds
        .iter()
        .all(|pred| ty.check(pred, loaded_words.value(part, pred.word)))
}

// The predicates among items.
fn preds_of(alloc: Global, items: &[Item]) -> Result<Vec<Pred>, AllocError>
    ensures { IfOk result (λ v. v.items ≡ preds_in items.now) }
{
    let mut found = Vec::new(alloc);
    for item in items {
        if let Item::Holds(pred) = item {
            found.push(*pred)?;
        }
    }
    Ok(found)
}

// The same in rising order of their parts.
fn sorted_preds(alloc: Global, items: &[Item]) -> Result<Vec<Pred>, AllocError>
    ensures rising { IfOk result (λ v. IsNonDecreasingBy (λ q. q.part) v.items) }
    ensures same { IfOk result (λ v. ArePredsOf items.now v.items) }
{
    let mut found = preds_of(alloc, items)?;
    found.sort_by_key(|pred| pred.part)?;
    Ok(found)
}

// Those on a part, of predicates in rising order of their parts.
fn on_part(preds: &[Pred], part: u32) -> &[Pred]
    requires { IsNonDecreasingBy (λ q. q.part) preds.now }
    ensures { (f : Pred → Bool) → list_all (λ q. if nat_eq q.part part then f q else true) preds.now ≡ list_all f result.now }
{
    let first = preds.partition_point(|pred| pred.part < part);
    let (_, rest) = preds.split_at(first);
    let count = rest.partition_point(|pred| pred.part <= part);
    let (found, _) = rest.split_at(count);
    found
}
