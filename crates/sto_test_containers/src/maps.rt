//! Maps.
ghost use Rattle.std.specs.Prelude.{◌≤◌};

use crate::asking::call;
use crate::plain::PlainRows;
use crate::walk::{Tally, walk};
use crate::worked::{compares, has_widths, is_answered};
use rand_core::utils::NextWord;
use rand_pcg::Pcg32;
use std::alloc::{AllocError, Global};
use std::collections::BTreeMap;
use sto_item::Item;
use sto_map::TMap;
use sto_model::{Call, Operation, Reply};
use sto_part::{Change, Test};

#[test]
fn worked_maps(rt: HostRuntime) {
    let cases = [
        has_widths(rt.alloc(), &TMap::new(1, 1, 1, 0), &[1, 2, 1, 1]),
        put_new(rt.alloc()),
        put_too_many(rt.alloc()),
        put_present(rt.alloc()),
        remove_one(rt.alloc()),
        get_none(rt.alloc()),
    ];
    assert_eq!(rt; cases, [Ok(true); 6]);
}

// A new key takes room and a place.
fn put_new(alloc: Global) -> Result<bool, AllocError> {
    let items = [
        Item::Seen(1),
        Item::Seen(2),
        compares(0, 0, Test::Ge, 1),
        Item::Seen(1),
    ];
    is_answered(
        alloc,
        &TMap::new(1, 1, 1, 0),
        &[call(Operation::Put, 8, 3)],
        &Reply::Done,
        &items,
        &[
            (0, &[Change::Add(-1)]),
            (1, &[Change::Put(1), Change::Put(8)]),
            (3, &[Change::Put(3)]),
        ],
    )
}

// No stripe has room.
fn put_too_many(alloc: Global) -> Result<bool, AllocError> {
    let calls = [call(Operation::Put, 8, 3), call(Operation::Put, 9, 4)];
    let items = [Item::Seen(1), Item::Seen(2), compares(0, 0, Test::Lt, 1)];
    is_answered(
        alloc,
        &TMap::new(1, 1, 1, 0),
        &calls,
        &Reply::Full,
        &items,
        &[],
    )
}

// A key that is there takes no room, also where there is none.
fn put_present(alloc: Global) -> Result<bool, AllocError> {
    let calls = [call(Operation::Put, 8, 3), call(Operation::Put, 8, 4)];
    is_answered(
        alloc,
        &TMap::new(1, 1, 1, 0),
        &calls,
        &Reply::Done,
        &[Item::Seen(1)],
        &[(3, &[Change::Put(4)])],
    )
}

// A removed key gives its room back.
fn remove_one(alloc: Global) -> Result<bool, AllocError> {
    let calls = [call(Operation::Put, 8, 3), call(Operation::Remove, 8, 0)];
    is_answered(
        alloc,
        &TMap::new(1, 1, 1, 0),
        &calls,
        &Reply::Flag(true),
        &[Item::Seen(1)],
        &[(0, &[Change::Add(1)]), (1, &[Change::Put(0), Change::Keep])],
    )
}

fn get_none(alloc: Global) -> Result<bool, AllocError> {
    let calls = [call(Operation::Put, 8, 3), call(Operation::Get, 9, 0)];
    let items = [Item::Seen(1), Item::Seen(2)];
    is_answered(
        alloc,
        &TMap::new(1, 1, 1, 0),
        &calls,
        &Reply::Absent,
        &items,
        &[],
    )
}

// Of three places the keys 1 and 3 have the home 1, and the keys 0 and 2 the home 2.
#[test]
fn keys_that_collide(rt: HostRuntime) {
    let cases = [
        put_past_another(rt.alloc()),
        put_round_the_end(rt.alloc()),
        get_past_a_removed(rt.alloc()),
        remove_past_another(rt.alloc()),
    ];
    assert_eq!(rt; cases, [Ok(true); 4]);
}

// The key 3 passes over the place of the key 1.
fn put_past_another(alloc: Global) -> Result<bool, AllocError> {
    let calls = [call(Operation::Put, 1, 10), call(Operation::Put, 3, 30)];
    let items = [
        Item::Seen(2),
        Item::Seen(5),
        compares(0, 0, Test::Ge, 1),
        Item::Seen(2),
        Item::Seen(3),
    ];
    is_answered(
        alloc,
        &TMap::new(3, 3, 1, 0),
        &calls,
        &Reply::Done,
        &items,
        &[
            (0, &[Change::Add(-1)]),
            (3, &[Change::Put(1), Change::Put(3)]),
            (5, &[Change::Add(1)]),
            (9, &[Change::Put(30)]),
        ],
    )
}

// The key 2 passes over the last place, and stands at the first.
fn put_round_the_end(alloc: Global) -> Result<bool, AllocError> {
    let calls = [call(Operation::Put, 0, 10), call(Operation::Put, 2, 20)];
    let items = [
        Item::Seen(3),
        Item::Seen(6),
        compares(0, 0, Test::Ge, 1),
        Item::Seen(3),
        Item::Seen(1),
    ];
    is_answered(
        alloc,
        &TMap::new(3, 3, 1, 0),
        &calls,
        &Reply::Done,
        &items,
        &[
            (0, &[Change::Add(-1)]),
            (1, &[Change::Put(1), Change::Put(2)]),
            (6, &[Change::Add(1)]),
            (7, &[Change::Put(20)]),
        ],
    )
}

// The place of the key 1 is free, and the key 3 still stands behind it.
fn get_past_a_removed(alloc: Global) -> Result<bool, AllocError> {
    let calls = [
        call(Operation::Put, 1, 10),
        call(Operation::Put, 3, 30),
        call(Operation::Remove, 1, 0),
        call(Operation::Get, 3, 0),
    ];
    let items = [Item::Seen(3), Item::Seen(9)];
    is_answered(
        alloc,
        &TMap::new(3, 3, 1, 0),
        &calls,
        &Reply::Value(30),
        &items,
        &[],
    )
}

// Past the place of the key 1 goes one key less.
fn remove_past_another(alloc: Global) -> Result<bool, AllocError> {
    let calls = [
        call(Operation::Put, 1, 10),
        call(Operation::Put, 3, 30),
        call(Operation::Remove, 3, 0),
    ];
    is_answered(
        alloc,
        &TMap::new(3, 3, 1, 0),
        &calls,
        &Reply::Flag(true),
        &[Item::Seen(3)],
        &[
            (0, &[Change::Add(1)]),
            (3, &[Change::Put(0), Change::Keep]),
            (5, &[Change::Add(-1)]),
        ],
    )
}

#[test]
fn map_walks(rt: HostRuntime) {
    let alloc = rt.alloc();
    let tallies = [
        walk_maps(alloc, &TMap::new(1, 1, 1, 1), 1, 3),
        walk_maps(alloc, &TMap::new(4, 4, 2, 2), 4, 8),
        walk_maps(alloc, &TMap::new(8, 16, 3, 3), 8, 14),
        walk_maps(alloc, &TMap::new(0, 2, 1, 4), 0, 3),
    ];
    assert_eq!(rt;
        tallies,
        [tally(42, 40), tally(17, 38), tally(9, 26), tally(71, 67)]
    );
}

fn tally(full: u32, absent: u32) -> Result<Tally, AllocError> {
    Ok(Tally {
        wrong: 0,
        full,
        absent,
    })
}

fn walk_maps(alloc: Global, map: &TMap, keys: u32, span: u32) -> Result<Tally, AllocError>
    requires { 2 ≤ span }
{
    let mut random = Pcg32::new(u64::from(keys), 1);
    let mut calls = Vec::new(alloc);
    for _ in 0..200 {
        calls.push(random_call(&mut random, span))?;
    }
    let mut plain = PlainRows {
        values: BTreeMap::new(alloc),
        most: keys as usize,
    };
    walk(alloc, map, &mut plain, calls.as_slice())
}

fn random_call(random: &mut Pcg32, span: u32) -> Call
    requires { 2 ≤ span }
{
    let key = random_key(random, span);
    let other = i64::MAX - i64::from(random.next_word());
    match random.next_word() % 10 {
        0..4 => call(Operation::Put, key, other),
        4..6 => call(Operation::Remove, key, 0),
        6 => call(Operation::Get, key, 0),
        7 => call(Operation::Has, key, 0),
        8 => call(Operation::Set, key, other),
        _ => call(Operation::Add, key, other),
    }
}

// The least and the greatest number of i64 are two of the keys.
fn random_key(random: &mut Pcg32, span: u32) -> i64
    requires { 2 ≤ span }
{
    match random.next_word() % span {
        0 => i64::MIN,
        1 => i64::MAX,
        number => i64::from(number),
    }
}
