//! The plan of a next.
ghost use Rattle.std.specs.Prelude.{◌≡◌, ◌<◌, ◌*◌, ◌^◌, ℕ, ℤ, Some, None, List as Seq, length, slice_index, IfOk, MatchResult};
ghost use Rattle.sto_type.specs.Known.{known, IsPartOf};
ghost use Rattle.sto_type.specs.Plans.{planned, IsPlan};
ghost use Rattle.sto_tree.specs.Layout.{parts_of};
ghost use Rattle.sto_tree.specs.Valid.{IsTree};
ghost use Rattle.sto_tree.specs.Next.{all_between as the_all_between};
ghost use Rattle.sto_tree.specs.Meaning.{tree_meaning, TreeTakes};
ghost use Rattle.sto_tree.specs.Walked.{next_need, next_found};

use crate::listing::{key_rows, listed_leaves};
use crate::said::key_part;
use crate::walk::see_keys;
use std::alloc::Global;
use sto_item::Items;
use sto_model::{Call, Operation, Reply};
use sto_part::NoMemory;
use sto_type::{Answer, AnswerPool, KnownParts};

/// What a next needs next, or what it comes to.
pub(crate) fn plan_next(
    alloc: Global,
    pool: &mut AnswerPool,
    leaves: u32,
    call: &Call,
    cache: &KnownParts<'_>,
) -> Result<Answer, NoMemory>
    requires few { parts_of leaves < 2 ^ 32 }
    requires takes { TreeTakes leaves call.now }
    requires next { call.now.operation ≡ Operation.Next }
    requires part { (d : Seq (Seq ℤ)) × IsTree leaves d × IsPartOf (known cache.now) d }
    ensures { IfOk result (λ a. IsPlan (tree_meaning leaves) call.now (known cache.now) (planned a)) }
{
    let Some(directory) = cache.get(1) else {
        return Ok(Answer::Need(1));
    };
    let listed = listed_leaves(alloc, leaves, directory, call.a, i64::MAX)?;
    match find_next(alloc, leaves, cache, listed.as_slice(), call.a)? {
        Err(part) => Ok(Answer::Need(part)),
        Ok(Some(key)) => Ok(Answer::Done {
            reply: Reply::Value(key),
            items: all_between(alloc, pool, leaves, directory, call.a, key)?,
            updates: pool.updates(),
        }),
        Ok(None) => Ok(Answer::Done {
            reply: Reply::Absent,
            items: all_between(alloc, pool, leaves, directory, call.a, i64::MAX)?,
            updates: pool.updates(),
        }),
    }
}

// The least key from a number on in leaves one after the other; or the part that is needed first.
fn find_next(
    alloc: Global,
    leaves: u32,
    cache: &KnownParts<'_>,
    listed: &[u32],
    key: i64,
) -> Result<Result<Option<i64>, u32>, NoMemory>
    requires few { parts_of leaves < 2 ^ 32 }
    requires below { (n : ℕ) → n < length listed.now → slice_index listed.now n < leaves }
    requires part { (d : Seq (Seq ℤ)) × IsTree leaves d × IsPartOf (known cache.now) d }
    ensures { IfOk result (λ r. MatchResult r (λ found. (next_need (known cache.now) key listed.now ≡ None)
        × (found ≡ next_found (known cache.now) key listed.now)) (λ p. next_need (known cache.now) key listed.now ≡ Some p)) }
{
    for leaf in listed {
        let part = key_part(*leaf);
        let Some(keys) = cache.get(part) else {
            return Ok(Err(part));
        };
        let rows = key_rows(alloc, keys)?;
        if let Some(found) = rows.next_key(key) {
            return Ok(Ok(Some(found)));
        }
    }
    Ok(Ok(None))
}

// What a count from one number to another observes.
fn all_between(
    alloc: Global,
    pool: &mut AnswerPool,
    leaves: u32,
    directory: &[i64],
    from: i64,
    to: i64,
) -> Result<Items, NoMemory>
    requires few { parts_of leaves < 2 ^ 32 }
    requires width { length directory.now ≡ 3 * leaves }
    ensures { IfOk result (λ l. l.items ≡ the_all_between leaves directory.now from to) }
{
    let listed = listed_leaves(alloc, leaves, directory, from, to)?;
    let mut items = pool.items();
    for leaf in listed.as_slice() {
        see_keys(&mut items, directory, *leaf, from, to)?;
    }
    Ok(items)
}
