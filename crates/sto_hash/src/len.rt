//! The plan of len: it needs every key part, and counts what is present there.
ghost use Rattle.std.specs.Prelude.{◌≡◌, ◌+◌, ◌*◌, ◌<◌, ◌^◌, ℤ, List, [], Some, pos, length, count_by, IfOk};
ghost use Rattle.sto_model.specs.PlainReplies.{Value as ToldValue};
ghost use Rattle.sto_type.specs.Known.{known, IsPartOf};
ghost use Rattle.sto_type.specs.Plans.{planned, IsPlan, IsSaid};
ghost use Rattle.sto_block.specs.Blocks.{is_present, places_of};
ghost use Rattle.sto_hash.specs.Hashed.{hash_meaning, first_asked, all_seen, known_total, words_known, HashTakes, IsHash};

use sto_block::count_present;
use sto_item::{Item, Items};
use sto_model::{Call, Operation, Reply};
use sto_part::NoMemory;
use sto_type::{Answer, AnswerPool, KnownParts};

/// The plan of a len.
pub(crate) fn plan_len(
    pool: &mut AnswerPool,
    buckets: u32,
    places: u32,
    call: &Call,
    cache: &KnownParts<'_>,
) -> Result<Answer, NoMemory>
    requires takes { HashTakes buckets call.now }
    requires operation { call.now.operation ≡ Operation.Len }
    requires some { 0 < buckets }
    requires few { buckets * (1 + places) < 2 ^ 32 }
    requires words { 2 * places < 2 ^ 32 }
    requires part { (d : List (List ℤ)) × IsHash buckets places d × IsPartOf (known cache.now) d }
    ensures { IfOk result (λ a. IsPlan (hash_meaning buckets places) call.now (known cache.now) (planned a)) }
{
    if let Some(part) = first_unknown(buckets, places, cache) {
        return Ok(Answer::Need(part));
    }
    let total = count_all(buckets, places, cache);
    len_answer(pool, buckets, places, total)
}

// The answer where every key part is known, and so many keys are present.
fn len_answer(
    pool: &mut AnswerPool,
    buckets: u32,
    places: u32,
    total: u32,
) -> Result<Answer, NoMemory>
    requires few { buckets * (1 + places) < 2 ^ 32 }
    ensures { IfOk result (IsSaid (ToldValue (pos total)) (all_seen places 0 buckets) []) }
{
    Ok(Answer::Done {
        reply: Reply::Value(i64::from(total)),
        items: see_all(pool, buckets, places)?,
        updates: pool.updates(),
    })
}

// The first key part that is not known. A len is planned anew for each of them, so this comes before any words are looked at.
fn first_unknown(buckets: u32, places: u32, cache: &KnownParts<'_>) -> Option<u32>
    requires few { buckets * (1 + places) < 2 ^ 32 }
    ensures { first_asked places (known cache.now) 0 buckets ≡ result }
{
    for bucket in 0..buckets {
        let part = bucket * (1 + places);
        let Some(_words) = cache.get(part) else {
            return Some(part);
        };
    }
    None
}

// How many keys are present in the key parts that are known.
fn count_all(buckets: u32, places: u32, cache: &KnownParts<'_>) -> u32
    requires few { buckets * (1 + places) < 2 ^ 32 }
    requires words { 2 * places < 2 ^ 32 }
    requires part { (d : List (List ℤ)) × IsHash buckets places d × IsPartOf (known cache.now) d }
    ensures { result ≡ known_total places (known cache.now) 0 buckets }
{
    let mut total = 0;
    for bucket in 0..buckets {
        total += count_known(bucket * (1 + places), cache);
    }
    total
}

// How many keys are present in a key part; none where it is not known.
fn count_known(part: u32, cache: &KnownParts<'_>) -> u32
    requires { length (words_known (known cache.now part)) < 2 ^ 32 }
    ensures { result ≡ count_by is_present (places_of (words_known (known cache.now part))) }
{
    match cache.get(part) {
        Some(words) => count_present(words),
        None => 0,
    }
}

// An item of each key part.
fn see_all(pool: &mut AnswerPool, buckets: u32, places: u32) -> Result<Items, NoMemory>
    requires few { buckets * (1 + places) < 2 ^ 32 }
    ensures { IfOk result (λ l. l.items ≡ all_seen places 0 buckets) }
{
    let mut items = pool.items();
    items.reserve(buckets)?;
    for bucket in 0..buckets {
        items.push_spare(Item::Seen(bucket * (1 + places)));
    }
    Ok(items)
}
