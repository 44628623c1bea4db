//! The plan of the calls of one key.
ghost use Rattle.std.specs.Prelude.{◌≡◌, ◌+◌, ◌*◌, ◌<◌, ◌^◌, ℤ, List, Some, pos, slice_index_or, IfOk};
ghost use Rattle.sto_type.specs.Known.{known, IsPartOf};
ghost use Rattle.sto_type.specs.Plans.{planned, IsPlan};
ghost use Rattle.sto_hash.specs.Hashed.{key_part, hash_meaning, HashTakes, IsHash};

use crate::answers::{absent_answer, has_answer, present_answer, put_answer, remove_answer};
use sto_block::{find, free};
use sto_model::{Call, Operation};
use sto_part::NoMemory;
use sto_type::{Answer, AnswerPool, KnownParts};

/// The plan of a call that asks whether a key is there.
pub(crate) fn plan_has(
    pool: &mut AnswerPool,
    buckets: u32,
    places: u32,
    call: &Call,
    cache: &KnownParts<'_>,
) -> Result<Answer, NoMemory>
    requires takes { HashTakes buckets call.now }
    requires operation { call.now.operation ≡ Operation.Has }
    requires some { 0 < buckets }
    requires few { buckets * (1 + places) < 2 ^ 32 }
    requires words { 2 * places < 2 ^ 32 }
    requires part { (d : List (List ℤ)) × IsHash buckets places d × IsPartOf (known cache.now) d }
    ensures { IfOk result (λ a. IsPlan (hash_meaning buckets places) call.now (known cache.now) (planned a)) }
{
    let part = key_part_of(buckets, places, call.a);
    match cache.get(part) {
        None => Ok(Answer::Need(part)),
        Some(keys) => {
            let found = find(keys, call.a);
            has_answer(pool, part, call.a, found)
        }
    }
}

/// The plan of a remove.
pub(crate) fn plan_remove(
    pool: &mut AnswerPool,
    buckets: u32,
    places: u32,
    call: &Call,
    cache: &KnownParts<'_>,
) -> Result<Answer, NoMemory>
    requires takes { HashTakes buckets call.now }
    requires operation { call.now.operation ≡ Operation.Remove }
    requires some { 0 < buckets }
    requires few { buckets * (1 + places) < 2 ^ 32 }
    requires words { 2 * places < 2 ^ 32 }
    requires part { (d : List (List ℤ)) × IsHash buckets places d × IsPartOf (known cache.now) d }
    ensures { IfOk result (λ a. IsPlan (hash_meaning buckets places) call.now (known cache.now) (planned a)) }
{
    let part = key_part_of(buckets, places, call.a);
    match cache.get(part) {
        None => Ok(Answer::Need(part)),
        Some(keys) => {
            let found = find(keys, call.a);
            remove_answer(pool, places, part, call.a, found)
        }
    }
}

/// The plan of a put.
pub(crate) fn plan_put(
    pool: &mut AnswerPool,
    buckets: u32,
    places: u32,
    call: &Call,
    cache: &KnownParts<'_>,
) -> Result<Answer, NoMemory>
    requires takes { HashTakes buckets call.now }
    requires operation { call.now.operation ≡ Operation.Put }
    requires some { 0 < buckets }
    requires few { buckets * (1 + places) < 2 ^ 32 }
    requires words { 2 * places < 2 ^ 32 }
    requires part { (d : List (List ℤ)) × IsHash buckets places d × IsPartOf (known cache.now) d }
    ensures { IfOk result (λ a. IsPlan (hash_meaning buckets places) call.now (known cache.now) (planned a)) }
{
    let part = key_part_of(buckets, places, call.a);
    match cache.get(part) {
        None => Ok(Answer::Need(part)),
        Some(keys) => {
            let found = find(keys, call.a);
            let room = free(keys);
            put_answer(pool, places, part, call.a, call.b, found, room)
        }
    }
}

/// The plan of a get.
pub(crate) fn plan_get(
    pool: &mut AnswerPool,
    buckets: u32,
    places: u32,
    call: &Call,
    cache: &KnownParts<'_>,
) -> Result<Answer, NoMemory>
    requires takes { HashTakes buckets call.now }
    requires operation { call.now.operation ≡ Operation.Get }
    requires some { 0 < buckets }
    requires few { buckets * (1 + places) < 2 ^ 32 }
    requires words { 2 * places < 2 ^ 32 }
    requires part { (d : List (List ℤ)) × IsHash buckets places d × IsPartOf (known cache.now) d }
    ensures { IfOk result (λ a. IsPlan (hash_meaning buckets places) call.now (known cache.now) (planned a)) }
{
    let part = key_part_of(buckets, places, call.a);
    match cache.get(part) {
        None => Ok(Answer::Need(part)),
        Some(keys) => {
            let found = find(keys, call.a);
            match found {
                None => absent_answer(pool, part),
                Some(place) => {
                    let home = part + 1 + place;
                    match cache.first_word(home) {
                        None => Ok(Answer::Need(home)),
                        Some(value) => present_answer(pool, part, call.a, place, value),
                    }
                }
            }
        }
    }
}

// The key part of the bucket of a key.
fn key_part_of(buckets: u32, places: u32, key: i64) -> u32
    requires some { 0 < buckets }
    requires few { buckets * (1 + places) < 2 ^ 32 }
    ensures { result ≡ key_part buckets places key }
{
    let bucket = key.rem_euclid(i64::from(buckets)) as u32;
    bucket * (1 + places)
}
