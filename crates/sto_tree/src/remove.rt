//! The plan of a remove.
ghost use Rattle.std.specs.Prelude.{◌≡◌, ◌<◌, ◌^◌, ℤ, List, IfOk, [], ◌∷◌, pos, negsuc};
ghost use Rattle.sto_type.specs.Known.{known, IsPartOf};
ghost use Rattle.sto_type.specs.Plans.{planned, IsPlan};
ghost use Rattle.sto_tree.specs.Layout.{parts_of, key_part as the_key_part};
ghost use Rattle.sto_tree.specs.Said.{key_changes, at_place, size_grows, cover as the_cover, here as place_here};
ghost use Rattle.sto_part.specs.declared.change.Change.TheVariants.{Put as PutWord, Keep as KeepWord};
ghost use Rattle.sto_tree.specs.Valid.{IsTree};
ghost use Rattle.sto_tree.specs.Meaning.{tree_meaning, TreeTakes};

use crate::changes::{place_changes, word_change};
use crate::leaf::find_leaf;
use crate::said::{here_items, key_part, leaf_items};
use crate::search::place_of;
use sto_item::Updates;
use sto_model::{Call, Operation, Reply};
use sto_part::{Change, NoMemory};
use sto_type::{Answer, AnswerPool, KnownParts};

/// What a remove needs next, or what it comes to.
pub(crate) fn plan_remove(
    pool: &mut AnswerPool,
    leaves: u32,
    call: &Call,
    cache: &KnownParts<'_>,
) -> Result<Answer, NoMemory>
    requires few { parts_of leaves < 2 ^ 32 }
    requires takes { TreeTakes leaves call.now }
    requires remove { call.now.operation ≡ Operation.Remove }
    requires part { (d : List (List ℤ)) × IsTree leaves d × IsPartOf (known cache.now) d }
    ensures { IfOk result (λ a. IsPlan (tree_meaning leaves) call.now (known cache.now) (planned a)) }
{
    let found = match find_leaf(cache, leaves, call.a) {
        Ok(found) => found,
        Err(part) => return Ok(Answer::Need(part)),
    };
    let Some(place) = place_of(found.keys, call.a) else {
        return Ok(Answer::Done {
            reply: Reply::Flag(false),
            items: leaf_items(pool, found.number, call.a)?,
            updates: pool.updates(),
        });
    };
    Ok(Answer::Done {
        reply: Reply::Flag(true),
        items: here_items(pool, found.number, place, call.a)?,
        updates: removed(pool, found.number, place)?,
    })
}

// A place that is present no more, and the size one less.
fn removed(pool: &mut AnswerPool, leaf: u32, place: u32) -> Result<Updates, NoMemory>
    requires part { the_key_part leaf < 2 ^ 32 }
    requires place { place < 8 }
    ensures { IfOk result (λ l. l.items ≡ size_grows (negsuc 0)
        ∷ (the_key_part leaf, key_changes (at_place place (PutWord (pos 0)) KeepWord)) ∷ []) }
{
    let mut updates = pool.updates();
    updates.push((0, word_change(pool, Change::Add(-1))?))?;
    let places = place_changes(pool, place, Change::Put(0), Change::Keep)?;
    updates.push((key_part(leaf), places))?;
    Ok(updates)
}
