//! What a call of each kind answers where a store opens.
ghost use Rattle.std.specs.Prelude.{IfOk};
ghost use Rattle.sto_type.specs.Known.{known, IsPartOf};

use std::alloc::Global;
use sto_model::{Call, Operation, Reply, Shape, Shapes};
use sto_part::NoMemory;
use sto_store::{Objects, build};
use sto_type::{Answer, AnswerPool, Cache, TxType};

const ONE_OF_EACH_KIND: &[Shape] = &[
    Shape::Single(7),
    Shape::Counter(5),
    Shape::Array { len: 3, value: 2 },
    Shape::Hash {
        buckets: 2,
        places: 1,
    },
    Shape::Tree { leaves: 2 },
];

// A box, a counter, an array, a hash table and a tree.
fn one_of_each_kind(alloc: Global) -> Result<Objects, NoMemory> {
    let mut shapes = Shapes::new(alloc);
    shapes.extend(ONE_OF_EACH_KIND)?;
    build(alloc, &shapes)
}

// An object, the operation and the number of a call on it, and the value that it answers; none where it answers no value or
// is not taken.
type Row = (u32, Operation, i64, Option<i64>);

const ROWS: &[Row] = &[
    (0, Operation::Get, 0, Some(7)),
    (1, Operation::Get, 0, Some(5)),
    (2, Operation::Get, 2, Some(2)),
    (2, Operation::Get, 3, None),
    (3, Operation::Len, 0, Some(0)),
    (4, Operation::Len, 0, Some(0)),
    (4, Operation::Get, 9, None),
    (5, Operation::Get, 0, None),
];

#[test]
fn each_kind_answers(rt: HostRuntime) {
    assert_eq!(rt; is_answered_by_each_kind(rt.alloc()), Ok(true));
}

fn is_answered_by_each_kind(alloc: Global) -> Result<bool, NoMemory> {
    let store = one_of_each_kind(alloc)?;
    all_answer(alloc, &store)
}

fn all_answer<T: TxType>(alloc: Global, ty: &T) -> Result<bool, NoMemory> {
    for row in ROWS {
        if !answers(alloc, ty, row)? {
            return Ok(false);
        }
    }
    Ok(true)
}

fn answers<T: TxType>(alloc: Global, ty: &T, row: &Row) -> Result<bool, NoMemory> {
    let call = Call::new(row.0, row.1, row.2, 0);
    Ok(value_at_opening(alloc, ty, &call)? == row.3)
}

// The value that a call answers on the opening contents.
fn value_at_opening<T: TxType>(
    alloc: Global,
    ty: &T,
    call: &Call,
) -> Result<Option<i64>, NoMemory> {
    if !ty.takes(call) {
        return Ok(None);
    }
    let cache = opened(alloc, ty)?;
    match ty.plan(alloc, &mut AnswerPool::new(alloc), call, &cache.all())? {
        Answer::Done {
            reply: Reply::Value(value),
            ..
        } => Ok(Some(value)),
        _ => Ok(None),
    }
}

// A cache that knows all parts of the opening contents.
fn opened<T: TxType>(alloc: Global, ty: &T) -> Result<Cache, NoMemory>
    ensures { IfOk result (λ c. IsPartOf (known c) (T.meaning ty.now).opened) }
{
    let opening = ty.opening(alloc)?;
    let mut cache = Cache::new(alloc);
    for part in 0..opening.parts() {
        cache.learn(part, opening.get(part).as_slice())?;
    }
    Ok(cache)
}
