//! The plans of a count and a scan.
ghost use Rattle.std.specs.Prelude.{◌≡◌, ◌<◌, ◌*◌, ◌^◌, ℤ, List, [], length, IfOk, if◌then◌else◌};
ghost use Rattle.sto_model.specs.PlainReplies.{plain_reply};
ghost use Rattle.sto_type.specs.Known.{known, IsPartOf};
ghost use Rattle.sto_type.specs.Plans.{planned, IsPlan};
ghost use Rattle.sto_tree.specs.Layout.{parts_of};
ghost use Rattle.sto_tree.specs.Valid.{IsTree};
ghost use Rattle.sto_tree.specs.Meaning.{tree_meaning, TreeTakes};
ghost use Rattle.sto_tree.specs.KnownCount.{known_told};
ghost use Rattle.sto_tree.specs.Walked.{told_of};

use crate::count::known_count;
use crate::listing::listed_leaves;
use crate::range::known_rows;
use crate::walk::see_leaves;
use std::alloc::Global;
use sto_model::{Call, Operation, Pairs, Reply};
use sto_part::NoMemory;
use sto_type::{Answer, AnswerPool, KnownParts};

/// What a count needs next, or a scan, or what it comes to.
pub(crate) fn plan_between(
    alloc: Global,
    pool: &mut AnswerPool,
    leaves: u32,
    call: &Call,
    cache: &KnownParts<'_>,
    scans: bool,
) -> Result<Answer, NoMemory>
    requires few { parts_of leaves < 2 ^ 32 }
    requires takes { TreeTakes leaves call.now }
    requires operation { call.now.operation ≡ (if scans then Operation.Scan else Operation.Count) }
    requires part { (d : List (List ℤ)) × IsTree leaves d × IsPartOf (known cache.now) d }
    ensures { IfOk result (λ a. IsPlan (tree_meaning leaves) call.now (known cache.now) (planned a)) }
{
    if call.a > call.b {
        return Ok(Answer::Done {
            reply: empty_reply(alloc, scans),
            items: pool.items(),
            updates: pool.updates(),
        });
    }
    let Some(directory) = cache.get(1) else {
        return Ok(Answer::Need(1));
    };
    let listed = listed_leaves(alloc, leaves, directory, call.a, call.b)?;
    let seen = see_leaves(
        alloc,
        pool,
        leaves,
        directory,
        cache,
        listed.as_slice(),
        call.a,
        call.b,
        scans,
    )?;
    match seen {
        Err(part) => Ok(Answer::Need(part)),
        Ok(items) => Ok(Answer::Done {
            reply: reply_of(alloc, leaves, directory, cache, call.a, call.b, scans)?,
            items,
            updates: pool.updates(),
        }),
    }
}

// What a count, or a scan, answers where all that it needs is known.
fn reply_of(
    alloc: Global,
    leaves: u32,
    directory: &[i64],
    cache: &KnownParts<'_>,
    from: i64,
    to: i64,
    scans: bool,
) -> Result<Reply, NoMemory>
    requires few { parts_of leaves < 2 ^ 32 }
    requires width { length directory.now ≡ 3 * leaves }
    requires part { (d : List (List ℤ)) × IsTree leaves d × IsPartOf (known cache.now) d }
    ensures { IfOk result (λ r. plain_reply r ≡ known_told scans leaves (known cache.now) directory.now from to) }
{
    if scans {
        let rows = known_rows(alloc, leaves, directory, cache, from, to)?;
        Ok(Reply::Pairs(rows.pairs_between(alloc, from, to)?))
    } else {
        let found = known_count(leaves, directory, cache, from, to);
        Ok(Reply::Value(i64::from(found)))
    }
}

// What they answer where no number is between.
fn empty_reply(alloc: Global, scans: bool) -> Reply
    ensures { plain_reply result ≡ told_of scans [] }
{
    if scans {
        Reply::Pairs(Pairs::new(alloc))
    } else {
        Reply::Value(0)
    }
}
