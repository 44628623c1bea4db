//! The plan of a put.
ghost use Rattle.std.specs.Prelude.{◌≡◌, ◌<◌, ◌*◌, ◌^◌, ℤ, pos, int_le, List, [], ◌∷◌, length, IfOk, MatchOption};
ghost use Rattle.sto_item.specs.declared.item.Item.TheVariants.{Seen as SeenPart};
ghost use Rattle.sto_type.specs.Known.{known, IsPartOf};
ghost use Rattle.sto_type.specs.Plans.{planned, IsPlan};
ghost use Rattle.sto_tree.specs.Layout.{parts_of, word, key_part as the_key_part};
ghost use Rattle.sto_tree.specs.Said.{compared, cover as the_cover};
ghost use Rattle.sto_tree.specs.Valid.{IsTree};
ghost use Rattle.sto_tree.specs.Found.{IsAtLeaf, IsCrowded};
ghost use Rattle.sto_tree.specs.Meaning.{tree_meaning, TreeTakes};

use crate::changes::new_row;
use crate::get::only_word;
use crate::leaf::{Leaf, find_leaf};
use crate::listing::free_leaf;
use crate::repack::plan_repack;
use crate::said::{compares, here_items, leaf_items, value_part};
use crate::search::{free_place, place_of};
use crate::split::plan_split;
use std::alloc::Global;
use sto_item::Items;
use sto_model::{Call, Operation, Reply};
use sto_part::{Change, NoMemory, Test};
use sto_type::{Answer, AnswerPool, KnownParts, one_update};

/// What a put needs next, or what it comes to.
pub(crate) fn plan_put(
    alloc: Global,
    pool: &mut AnswerPool,
    leaves: u32,
    call: &Call,
    cache: &KnownParts<'_>,
) -> Result<Answer, NoMemory>
    requires few { parts_of leaves < 2 ^ 32 }
    requires takes { TreeTakes leaves call.now }
    requires put { call.now.operation ≡ Operation.Put }
    requires part { (d : List (List ℤ)) × IsTree leaves d × IsPartOf (known cache.now) d }
    ensures { IfOk result (λ a. IsPlan (tree_meaning leaves) call.now (known cache.now) (planned a)) }
{
    let found = match find_leaf(cache, leaves, call.a) {
        Ok(found) => found,
        Err(part) => return Ok(Answer::Need(part)),
    };
    if let Some(answer) = put_in_leaf(pool, leaves, call, cache, found)? {
        return Ok(answer);
    }
    match free_leaf(found.directory, leaves) {
        Some(free) => plan_split(alloc, pool, leaves, call, cache, found, free),
        None => plan_repack(alloc, pool, leaves, call, cache, found),
    }
}

// What a put into the leaf of its key needs next, or comes to; none where the leaf has no free place for a new key.
fn put_in_leaf(
    pool: &mut AnswerPool,
    leaves: u32,
    call: &Call,
    cache: &KnownParts<'_>,
    found: Leaf<'_>,
) -> Result<Option<Answer>, NoMemory>
    requires few { parts_of leaves < 2 ^ 32 }
    requires takes { TreeTakes leaves call.now }
    requires put { call.now.operation ≡ Operation.Put }
    requires part { (d : List (List ℤ)) × IsTree leaves d × IsPartOf (known cache.now) d }
    requires at { IsAtLeaf leaves (known cache.now) call.now.a found.directory.now found.number found.keys.now }
    requires below { found.number < leaves }
    requires keys { length found.keys.now ≡ 16 }
    ensures { IfOk result (λ o. MatchOption o (IsCrowded leaves (known cache.now) call.now.a found.entry.keys.now)
        (λ a. IsPlan (tree_meaning leaves) call.now (known cache.now) (planned a))) }
{
    if let Some(place) = place_of(found.keys, call.a) {
        return Ok(Some(Answer::Done {
            reply: Reply::Done,
            items: here_items(pool, found.number, place, call.a)?,
            updates: one_update(pool, value_part(found.number, place), Change::Put(call.b))?,
        }));
    }
    let Some(size) = cache.get(0) else {
        return Ok(Some(Answer::Need(0)));
    };
    if is_full(size, leaves) {
        return Ok(Some(Answer::Done {
            reply: Reply::Full,
            items: room_items(pool, found.number, call.a, Test::Ge, leaves)?,
            updates: pool.updates(),
        }));
    }
    let Some(place) = free_place(found.keys) else {
        return Ok(None);
    };
    Ok(Some(Answer::Done {
        reply: Reply::Done,
        items: room_items(pool, found.number, call.a, Test::Lt, leaves)?,
        updates: new_row(pool, found.number, place, call.a, call.b)?,
    }))
}

// Whether a tree has all rows that it may have.
fn is_full(size: &[i64], leaves: u32) -> bool
    requires few { parts_of leaves < 2 ^ 32 }
    requires width { length size.now ≡ 1 }
    ensures { result ≡ int_le (pos (4 * leaves)) (word size.now 0) }
{
    (4 * leaves) as i64 <= only_word(size)
}

// That a leaf has a key, what its whole key part says, and how the size compares with the most that it may be.
fn room_items(
    pool: &mut AnswerPool,
    leaf: u32,
    key: i64,
    test: Test,
    leaves: u32,
) -> Result<Items, NoMemory>
    requires part { the_key_part leaf < 2 ^ 32 }
    requires few { parts_of leaves < 2 ^ 32 }
    ensures { IfOk result (λ l. l.items ≡ the_cover leaf key key (SeenPart (the_key_part leaf) ∷ compared 0 0 test (pos (4 * leaves))
        ∷ [])) }
{
    let mut items = leaf_items(pool, leaf, key)?;
    items.push(compares(0, 0, test, (4 * leaves) as i64))?;
    Ok(items)
}
