//! Rings.
use crate::asking::call;
use crate::plain::PlainRing;
use crate::walk::{Tally, walk};
use crate::worked::{compares, has_widths, is_answered};
use rand_core::utils::NextWord;
use rand_pcg::Pcg32;
use std::alloc::{AllocError, Global};
use std::collections::VecDeque;
use sto_item::Item;
use sto_model::{Call, Operation, Reply};
use sto_part::{Change, Test};
use sto_ring::TRing;

#[test]
fn worked_rings(rt: HostRuntime) {
    let cases = [
        has_widths(rt.alloc(), &TRing::new(2), &[1, 1, 2, 2]),
        push_one(rt.alloc()),
        push_too_many(rt.alloc()),
        pop_the_first(rt.alloc()),
        pop_of_none(rt.alloc()),
        size_round_the_end(rt.alloc()),
    ];
    assert_eq!(rt; cases, [Ok(true); 6]);
}

// A push observes the tail and that its place is free, and never the head.
fn push_one(alloc: Global) -> Result<bool, AllocError> {
    let items = [compares(1, 0, Test::Eq, 0), compares(2, 0, Test::Eq, 0)];
    is_answered(
        alloc,
        &TRing::new(2),
        &[call(Operation::Push, 5, 0)],
        &Reply::Done,
        &items,
        &[
            (1, &[Change::Put(1)]),
            (2, &[Change::Put(1), Change::Put(5)]),
        ],
    )
}

fn push_too_many(alloc: Global) -> Result<bool, AllocError> {
    let calls = [
        call(Operation::Push, 5, 0),
        call(Operation::Push, 6, 0),
        call(Operation::Push, 7, 0),
    ];
    let items = [compares(1, 0, Test::Eq, 0), compares(2, 0, Test::Eq, 1)];
    is_answered(alloc, &TRing::new(2), &calls, &Reply::Full, &items, &[])
}

// A pop observes the head and its place, and never the tail.
fn pop_the_first(alloc: Global) -> Result<bool, AllocError> {
    let calls = [
        call(Operation::Push, 5, 0),
        call(Operation::Push, 6, 0),
        call(Operation::Pop, 0, 0),
    ];
    let items = [compares(0, 0, Test::Eq, 0), Item::Seen(2)];
    is_answered(
        alloc,
        &TRing::new(2),
        &calls,
        &Reply::Value(5),
        &items,
        &[(0, &[Change::Put(1)]), (2, &[Change::Put(0), Change::Keep])],
    )
}

fn pop_of_none(alloc: Global) -> Result<bool, AllocError> {
    let items = [compares(0, 0, Test::Eq, 0), compares(2, 0, Test::Eq, 0)];
    let calls = [call(Operation::Pop, 0, 0)];
    is_answered(alloc, &TRing::new(2), &calls, &Reply::Absent, &items, &[])
}

// The tail stands before the head.
fn size_round_the_end(alloc: Global) -> Result<bool, AllocError> {
    let calls = [
        call(Operation::Push, 5, 0),
        call(Operation::Push, 6, 0),
        call(Operation::Pop, 0, 0),
        call(Operation::Pop, 0, 0),
        call(Operation::Push, 7, 0),
        call(Operation::Push, 8, 0),
        call(Operation::Len, 0, 0),
    ];
    let items = [compares(0, 0, Test::Eq, 2), compares(1, 0, Test::Eq, 1)];
    is_answered(alloc, &TRing::new(3), &calls, &Reply::Value(2), &items, &[])
}

#[test]
fn ring_walks(rt: HostRuntime) {
    let tallies = [
        walk_rings(rt.alloc(), &TRing::new(1), 1),
        walk_rings(rt.alloc(), &TRing::new(2), 2),
        walk_rings(rt.alloc(), &TRing::new(5), 5),
    ];
    assert_eq!(rt; tallies, [tally(47, 28), tally(27, 10), tally(24, 1)]);
}

fn tally(full: u32, absent: u32) -> Result<Tally, AllocError> {
    Ok(Tally {
        wrong: 0,
        full,
        absent,
    })
}

fn walk_rings(alloc: Global, ring: &TRing, places: u32) -> Result<Tally, AllocError> {
    let mut random = Pcg32::new(u64::from(places), 1);
    let mut calls = Vec::new(alloc);
    for _ in 0..200 {
        calls.push(random_call(&mut random))?;
    }
    let mut plain = PlainRing {
        values: VecDeque::new(alloc),
        most: places as usize,
    };
    walk(alloc, ring, &mut plain, calls.as_slice())
}

fn random_call(random: &mut Pcg32) -> Call {
    match random.next_word() % 8 {
        0..3 => call(Operation::Push, i64::from(random.next_word()), 0),
        3..5 => call(Operation::Pop, 0, 0),
        5 => call(Operation::Get, 0, 0),
        6 => call(Operation::Has, 0, 0),
        _ => call(Operation::Len, 0, 0),
    }
}
