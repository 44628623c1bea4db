//! The plan of a len.
ghost use Rattle.std.specs.Prelude.{◌≡◌, ℤ, List, IfOk};
ghost use Rattle.sto_tree.specs.Meaning.{TreeTakes, tree_meaning};
ghost use Rattle.sto_tree.specs.Valid.{IsTree};
ghost use Rattle.sto_type.specs.Known.{IsPartOf, known};
ghost use Rattle.sto_type.specs.Plans.{IsPlan, planned};

use crate::get::only_word;
use sto_item::Item;
use sto_model::{Call, Operation, Reply};
use sto_part::NoMemory;
use sto_type::{Answer, AnswerPool, KnownParts, one_item};

/// What a len needs, or what it comes to.
pub(crate) fn plan_len(
    pool: &mut AnswerPool,
    leaves: u32,
    call: &Call,
    cache: &KnownParts<'_>,
) -> Result<Answer, NoMemory>
    requires takes { TreeTakes leaves call.now }
    requires len { call.now.operation ≡ Operation.Len }
    requires part { (d : List (List ℤ)) × IsTree leaves d × IsPartOf (known cache.now) d }
    ensures { IfOk result (λ a. IsPlan (tree_meaning leaves) call.now (known cache.now) (planned a)) }
{
    let Some(size) = cache.get(0) else {
        return Ok(Answer::Need(0));
    };
    Ok(Answer::Done {
        reply: Reply::Value(only_word(size)),
        items: one_item(pool, Item::Seen(0))?,
        updates: pool.updates(),
    })
}
