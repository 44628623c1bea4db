//! The plan of a get.
ghost use Rattle.std.specs.Prelude.{◌≡◌, ◌<◌, ◌^◌, ℤ, List, length, IfOk};
ghost use Rattle.sto_type.specs.Known.{known, IsPartOf};
ghost use Rattle.sto_type.specs.Plans.{planned, IsPlan};
ghost use Rattle.sto_tree.specs.Layout.{parts_of, word};
ghost use Rattle.sto_tree.specs.Valid.{IsTree};
ghost use Rattle.sto_tree.specs.Meaning.{tree_meaning, TreeTakes};

use crate::leaf::find_leaf;
use crate::said::{leaf_items, value_items, value_part};
use crate::search::place_of;
use sto_model::{Call, Operation, Reply};
use sto_part::NoMemory;
use sto_type::{Answer, AnswerPool, KnownParts};

/// What a get needs next, or what it comes to.
pub(crate) fn plan_get(
    pool: &mut AnswerPool,
    leaves: u32,
    call: &Call,
    cache: &KnownParts<'_>,
) -> Result<Answer, NoMemory>
    requires few { parts_of leaves < 2 ^ 32 }
    requires takes { TreeTakes leaves call.now }
    requires get { call.now.operation ≡ Operation.Get }
    requires part { (d : List (List ℤ)) × IsTree leaves d × IsPartOf (known cache.now) d }
    ensures { IfOk result (λ a. IsPlan (tree_meaning leaves) call.now (known cache.now) (planned a)) }
{
    let found = match find_leaf(cache, leaves, call.a) {
        Ok(found) => found,
        Err(part) => return Ok(Answer::Need(part)),
    };
    let Some(place) = place_of(found.keys, call.a) else {
        return Ok(Answer::Done {
            reply: Reply::Absent,
            items: leaf_items(pool, found.number, call.a)?,
            updates: pool.updates(),
        });
    };
    let part = value_part(found.number, place);
    let Some(value) = cache.get(part) else {
        return Ok(Answer::Need(part));
    };
    Ok(Answer::Done {
        reply: Reply::Value(only_word(value)),
        items: value_items(pool, found.number, place, call.a)?,
        updates: pool.updates(),
    })
}

// The word of a part of one word.
pub(crate) fn only_word(words: &[i64]) -> i64
    requires { length words.now ≡ 1 }
    ensures { result ≡ word words.now 0 }
{
    words[0]
}
