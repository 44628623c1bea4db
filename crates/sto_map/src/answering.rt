//! The answers to the calls of a map.
ghost use Rattle.std.specs.Prelude.{◌≡◌, ◌<◌, IfOk};
ghost use Rattle.std.specs.Int.{w64};
ghost use Rattle.std.specs.Int.RustNames.{FitsSigned};
ghost use Rattle.sto_type.specs.Known.{known};
ghost use Rattle.sto_type.specs.Plans.{planned};
ghost use Rattle.sto_type.specs.Telling.{plan_of};
ghost use Rattle.sto_map.specs.Mapped.{Sizes, map_telling, takes_by};

use crate::plan::{plan_change, plan_get, plan_has, plan_remove};
use crate::putting::plan_put;
use crate::size::Size;
use sto_container::absent;
use sto_model::{Call, Operation};
use sto_part::{Change, NoMemory};
use sto_type::{Answer, AnswerPool, KnownParts};

/// Whether a map takes calls of this operation.
pub(crate) fn is_taken(operation: Operation) -> bool
    ensures { result ≡ takes_by operation }
{
    matches!(
        operation,
        Operation::Get
            | Operation::Has
            | Operation::Set
            | Operation::Add
            | Operation::Remove
            | Operation::Put
    )
}

/// The answer to a call whose key has this home and this stripe.
pub(crate) fn answer(
    pool: &mut AnswerPool,
    size: &Size,
    home: u32,
    stripe: u32,
    call: &Call,
    cache: &KnownParts<'_>,
) -> Result<Answer, NoMemory>
    requires home { home < size.now.places }
    requires stripe { stripe < size.now.stripes }
    requires fits { FitsSigned w64 call.now.a }
    requires fits_too { FitsSigned w64 call.now.b }
    ensures { IfOk result (λ a. (z : Sizes) → z.places ≡ size.now.places → z.stripes ≡ size.now.stripes → z.home call.now.a ≡ home → z.stripe call.now.a ≡ stripe
        → planned a ≡ plan_of (map_telling z call.now.operation call.now.a call.now.b) (known cache.now)) }
{
    match call.operation {
        Operation::Get => plan_get(pool, cache, size, home, call.a),
        Operation::Has => plan_has(pool, cache, size, home, call.a),
        Operation::Set => plan_change(pool, cache, size, home, call.a, Change::Put(call.b)),
        Operation::Add => plan_change(pool, cache, size, home, call.a, Change::Add(call.b)),
        Operation::Remove => plan_remove(pool, cache, size, home, stripe, call.a),
        Operation::Put => plan_put(pool, cache, size, home, stripe, call.a, call.b),
        _ => absent(pool),
    }
}
