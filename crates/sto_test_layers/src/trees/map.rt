//! What an ordered map of std answers to the calls of a tree.
use crate::trees::asking::no_memory;
use std::alloc::{AllocError, Global};
use std::collections::BTreeMap;
use sto_model::{Call, Operation, Pairs, Reply};

/// What a tree that takes so many pairs is to answer to a call that it takes, and its pairs after it.
pub(crate) fn answer(
    alloc: Global,
    map: &mut BTreeMap<i64, i64>,
    most: usize,
    call: &Call,
) -> Result<Reply, AllocError> {
    match call.operation {
        Operation::Get => Ok(match map.get(&call.a) {
            Some(value) => Reply::Value(*value),
            None => Reply::Absent,
        }),
        Operation::Put => put(map, most, call.a, call.b),
        Operation::Remove => Ok(Reply::Flag(map.remove(&call.a).is_some())),
        Operation::Len => Ok(Reply::Value(map.len() as i64)),
        Operation::Next => Ok(match map.range(call.a..).next() {
            Some((key, _)) => Reply::Value(*key),
            None => Reply::Absent,
        }),
        Operation::Count => Ok(Reply::Value(i64::from(between(alloc, map, call.a, call.b)?.len()))),
        Operation::Scan => Ok(Reply::Pairs(between(alloc, map, call.a, call.b)?)),
        _ => Ok(Reply::Absent),
    }
}

fn put(
    map: &mut BTreeMap<i64, i64>,
    most: usize,
    key: i64,
    value: i64,
) -> Result<Reply, AllocError> {
    if !map.contains_key(&key) && map.len() >= most {
        return Ok(Reply::Full);
    }
    map.insert(key, value)?;
    Ok(Reply::Done)
}

// The pairs whose keys are from one number to another.
fn between(
    alloc: Global,
    map: &BTreeMap<i64, i64>,
    from: i64,
    to: i64,
) -> Result<Pairs, AllocError> {
    let mut pairs = Pairs::new(alloc);
    for (key, value) in map.iter() {
        if from <= *key && *key <= to && pairs.len() < u32::MAX {
            pairs.push((*key, *value)).map_err(|_| AllocError)?;
        }
    }
    Ok(pairs)
}
