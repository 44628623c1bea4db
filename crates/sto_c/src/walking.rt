//! The keys of a tree are walked piece by piece.
ghost use Rattle.std.specs.Prelude.{◌≡◌, OnErr, IfOk, IfErr, IfSome, IfNone, Some};
ghost use Rattle.sto_c.specs.Content.{IsWorker};
ghost use Rattle.sto_c.specs.Steps.{IsOfSameStore};
ghost use Rattle.sto_c.specs.Walks.{call_at, value_in, key_after, HasFound, HasNone, HasNotFound, HasWalkedOn, HasWalked};

use crate::calls::ask;
use crate::checking::call_of;
use crate::content::WorkerHandle;
use crate::crossing::{CallIn, PairOut, ReplyOut};
use crate::status::Status;
use std::alloc::Global;
use sto_model::Operation;

// The call of an operation of a tree at a key.
fn call_at(object: u32, operation: Operation, key: i64) -> CallIn
    ensures { result ≡ call_at object operation key }
{
    CallIn {
        object,
        operation: u32::from(operation.code()),
        numbers: 1,
        unused: 0,
        a: key,
        b: 0,
    }
}

// The value of a reply that has one.
fn value_in(reply: &ReplyOut) -> Option<i64>
    ensures { result ≡ value_in reply.now }
{
    if reply.answer == 1 {
        Some(reply.value)
    } else {
        None
    }
}

// The key behind this one, if it is one of 64 bits.
fn key_after(key: i64) -> Option<i64>
    ensures { result ≡ key_after key }
{
    if key == i64::MAX { None } else { Some(key + 1) }
}

// The least key from this one on with its value, if there is one.
fn find(
    alloc: Global,
    held: &mut WorkerHandle,
    object: u32,
    from: i64,
) -> Result<Option<PairOut>, Status>
    requires { IsWorker held.old }
    ensures worker { IsWorker held.new }
    ensures store { IsOfSameStore held.old held.new }
    ensures some { IfOk result (λ found. IfSome found (λ pair. HasFound object from pair held.old held.new)) }
    ensures none { IfOk result (λ found. IfNone found (HasNone object (Some from) held.old held.new)) }
    ensures failed { IfErr result (λ why. HasNotFound object from held.old why held.new) }
{
    let mut reply = ReplyOut {
        answer: 0,
        unused: 0,
        value: 0,
    };
    match ask(
        alloc,
        held,
        &call_at(object, Operation::Next, from),
        &mut reply,
    ) {
        Ok(()) => {}
        Err(status) => return Err(status),
    }
    let Some(key) = value_in(&reply) else {
        return Ok(None);
    };
    match ask(
        alloc,
        held,
        &call_at(object, Operation::Get, key),
        &mut reply,
    ) {
        Ok(()) => Ok(Some(PairOut {
            key,
            value: reply.value,
        })),
        Err(status) => Err(status),
    }
}

// Copies the pairs of a tree from a key on, as many as there is room for.
fn walk_on(
    alloc: Global,
    held: &mut WorkerHandle,
    object: u32,
    from: i64,
    pairs: &mut [PairOut],
    count: &mut usize,
) -> Result<(), Status>
    requires { IsWorker held.old }
    ensures worker { IsWorker held.new }
    ensures store { IsOfSameStore held.old held.new }
    ensures walked { HasWalkedOn object from pairs.old pairs.new count.new held.old result held.new }
    ensures kept { OnErr result (count.new ≡ count.old) }
{
    let mut next = Some(from);
    for place in 0..pairs.len() {
        let Some(key) = next else {
            *count = place;
            return Ok(());
        };
        match find(alloc, held, object, key) {
            Ok(Some(pair)) => {
                pairs[place] = pair;
                next = key_after(pair.key);
            }
            Ok(None) => {
                *count = place;
                return Ok(());
            }
            Err(status) => return Err(status),
        }
    }
    *count = pairs.len();
    Ok(())
}

/// Copies the pairs of a tree from a key on, as many as there is room for, where it may be asked for its keys.
pub(crate) fn walk(
    alloc: Global,
    held: &mut WorkerHandle,
    object: u32,
    from: i64,
    pairs: &mut [PairOut],
    count: &mut usize,
) -> Result<(), Status>
    requires { IsWorker held.old }
    ensures worker { IsWorker held.new }
    ensures store { IsOfSameStore held.old held.new }
    ensures walked { HasWalked object from pairs.old pairs.new count.new held.old result held.new }
    ensures kept { OnErr result (count.new ≡ count.old) }
{
    match call_of(held, &call_at(object, Operation::Next, from)) {
        Ok(_) => walk_on(alloc, held, object, from, pairs, count),
        Err(status) => Err(status),
    }
}
