//! The plans of a ring.
ghost use Rattle.std.specs.Prelude.{◌≡◌, ◌<◌, ◌+◌, ◌^◌, ℤ, List as Seq, Some, nat_eq, pos, IfOk};
ghost use Rattle.sto_model.specs.declared.operation.Operation.TheVariants.{Len};
ghost use Rattle.std.specs.Int.{w64};
ghost use Rattle.std.specs.Int.RustNames.{FitsSigned};
ghost use Rattle.sto_type.specs.Known.{known, IsPartOf};
ghost use Rattle.sto_type.specs.Plans.{planned};
ghost use Rattle.sto_type.specs.Telling.{plan_of};
ghost use Rattle.sto_ring.specs.Ringed.{ring_telling, len_told, takes_by, IsRing};

use crate::answers::{front_answer, len_answer, pop_answer, push_answer, some_answer};
use crate::ends::{at_end, number_in, place_part};
use sto_container::{absent, is_live, offset};
use sto_model::{Call, Operation};
use sto_part::NoMemory;
use sto_type::{Answer, AnswerPool, KnownParts};

/// Whether a ring takes calls of this operation.
pub(crate) fn is_taken(operation: Operation) -> bool
    ensures { result ≡ takes_by operation }
{
    matches!(
        operation,
        Operation::Push | Operation::Pop | Operation::Get | Operation::Has | Operation::Len
    )
}

// The answer of a len, where both ends are known.
fn len_between(
    pool: &mut AnswerPool,
    places: u32,
    head: u32,
    tail: u32,
    cache: &KnownParts<'_>,
) -> Result<Answer, NoMemory>
    requires few { places + 2 < 2 ^ 32 }
    requires head { head < places }
    requires tail { tail < places }
    ensures { IfOk result (λ a. planned a ≡ plan_of (len_told places head tail (nat_eq head tail)) (known cache.now)) }
{
    if head != tail {
        return len_answer(pool, offset(places, head, tail), head, tail, None);
    }
    let Some(words) = cache.get(place_part(head)) else {
        return Ok(Answer::Need(place_part(head)));
    };
    let live = is_live(words);
    let size = if live { places } else { 0 };
    len_answer(pool, size, head, tail, Some(live))
}

// The answer of a len.
fn plan_len(pool: &mut AnswerPool, places: u32, cache: &KnownParts<'_>) -> Result<Answer, NoMemory>
    requires few { places + 2 < 2 ^ 32 }
    requires part { (d : Seq (Seq ℤ)) × IsRing places d × IsPartOf (known cache.now) d }
    ensures { IfOk result (λ a. planned a ≡ plan_of (ring_telling places Len (pos 0)) (known cache.now)) }
{
    let Some(head) = cache.first_word(0) else {
        return Ok(Answer::Need(0));
    };
    let Some(tail) = cache.first_word(1) else {
        return Ok(Answer::Need(1));
    };
    len_between(
        pool,
        places,
        number_in(places, head),
        number_in(places, tail),
        cache,
    )
}

/// The answer to a call.
pub(crate) fn answer(
    pool: &mut AnswerPool,
    places: u32,
    call: &Call,
    cache: &KnownParts<'_>,
) -> Result<Answer, NoMemory>
    requires few { places + 2 < 2 ^ 32 }
    requires fits { FitsSigned w64 call.now.a }
    requires part { (d : Seq (Seq ℤ)) × IsRing places d × IsPartOf (known cache.now) d }
    ensures { IfOk result (λ a. planned a ≡ plan_of (ring_telling places call.now.operation call.now.a) (known cache.now)) }
{
    match call.operation {
        Operation::Push => match at_end(cache, places, 1) {
            Err(part) => Ok(Answer::Need(part)),
            Ok(end) => push_answer(pool, places, &end, call.a),
        },
        Operation::Pop => match at_end(cache, places, 0) {
            Err(part) => Ok(Answer::Need(part)),
            Ok(end) => pop_answer(pool, places, &end),
        },
        Operation::Get => match at_end(cache, places, 0) {
            Err(part) => Ok(Answer::Need(part)),
            Ok(end) => front_answer(pool, places, &end),
        },
        Operation::Has => match at_end(cache, places, 0) {
            Err(part) => Ok(Answer::Need(part)),
            Ok(end) => some_answer(pool, places, &end),
        },
        Operation::Len => plan_len(pool, places, cache),
        _ => absent(pool),
    }
}
