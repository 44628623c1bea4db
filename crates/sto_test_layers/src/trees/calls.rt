//! The calls of worked cases.
use std::alloc::{AllocError, Global};
use sto_model::{Call, Operation};

/// A call of a tree.
pub(crate) fn call(operation: Operation, a: i64, b: i64) -> Call {
    Call::new(0, operation, a, b)
}

// Adds puts of so many keys, each ten above the one before, with the keys as values.
fn add_puts(calls: &mut Vec<Call>, first: i64, count: i64) -> Result<(), AllocError> {
    for turn in 0..count {
        let key = first.saturating_add(turn.saturating_mul(10));
        calls.push(call(Operation::Put, key, key))?;
    }
    Ok(())
}

// Adds removes of keys.
fn add_removes(calls: &mut Vec<Call>, keys: &[i64]) -> Result<(), AllocError> {
    for key in keys {
        calls.push(call(Operation::Remove, *key, 0))?;
    }
    Ok(())
}

/// The ninth key of a tree of two leaves is one too many, and a key that is there is not.
pub(crate) fn full_tree(alloc: Global) -> Result<Vec<Call>, AllocError> {
    let mut calls = Vec::new(alloc);
    add_puts(&mut calls, 10, 9)?;
    calls.extend_from_slice(&[
        call(Operation::Put, 80, 5),
        call(Operation::Len, 0, 0),
        call(Operation::Scan, 60, 90),
    ])?;
    Ok(calls)
}

/// In a tree of three leaves the keys 90 and 130 split a leaf. Key 170 finds a full leaf and no other, and all is packed anew.
pub(crate) fn split_and_repack(alloc: Global) -> Result<Vec<Call>, AllocError> {
    let mut calls = Vec::new(alloc);
    add_puts(&mut calls, 10, 9)?;
    add_removes(&mut calls, &[10, 20, 30])?;
    add_puts(&mut calls, 100, 4)?;
    add_removes(&mut calls, &[50, 60, 70])?;
    add_puts(&mut calls, 140, 4)?;
    calls.extend_from_slice(&[
        call(Operation::Next, 81, 0),
        call(Operation::Count, 40, 100),
        call(Operation::Scan, 40, 100),
        call(Operation::Scan, 0, 1000),
    ])?;
    Ok(calls)
}

/// A tree of one leaf takes four keys.
pub(crate) fn one_leaf(alloc: Global) -> Result<Vec<Call>, AllocError> {
    let mut calls = Vec::new(alloc);
    add_puts(&mut calls, 10, 5)?;
    add_removes(&mut calls, &[20, 20])?;
    add_puts(&mut calls, 50, 1)?;
    calls.extend_from_slice(&[
        call(Operation::Get, 20, 0),
        call(Operation::Get, 50, 0),
        call(Operation::Scan, 0, 99),
    ])?;
    Ok(calls)
}

/// Keys at both ends of i64, also where a leaf is split.
pub(crate) fn least_and_greatest(alloc: Global) -> Result<Vec<Call>, AllocError> {
    let mut calls = Vec::new(alloc);
    calls.extend_from_slice(&[
        call(Operation::Put, i64::MAX, 1),
        call(Operation::Put, i64::MIN, 2),
        call(Operation::Next, i64::MIN, 0),
        call(Operation::Next, i64::MAX, 0),
    ])?;
    add_puts(&mut calls, 10, 7)?;
    calls.extend_from_slice(&[
        call(Operation::Count, i64::MIN, i64::MAX),
        call(Operation::Count, i64::MAX, i64::MIN),
        call(Operation::Scan, 60, i64::MAX),
        call(Operation::Remove, i64::MAX, 0),
        call(Operation::Next, 71, 0),
        call(Operation::Get, i64::MIN, 0),
    ])?;
    Ok(calls)
}
