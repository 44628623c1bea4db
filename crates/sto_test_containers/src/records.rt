//! Records.
ghost use Rattle.std.specs.Prelude.{◌≤◌};

use crate::asking::call;
use crate::plain::PlainRows;
use crate::walk::{Tally, walk};
use crate::worked::{compares, has_widths, is_answered};
use rand_core::utils::NextWord;
use rand_pcg::Pcg32;
use std::alloc::{AllocError, Global};
use std::collections::BTreeMap;
use sto_model::{Call, Operation, Reply};
use sto_part::{Change, Test};
use sto_record::TRecord;

#[test]
fn worked_records(rt: HostRuntime) {
    let cases = [
        has_widths(rt.alloc(), &TRecord::new(3, 7), &[3]),
        get_one(rt.alloc()),
        add_to_one(rt.alloc()),
        none_there(rt.alloc()),
    ];
    assert_eq!(rt; cases, [Ok(true); 4]);
}

// A get observes its word alone.
fn get_one(alloc: Global) -> Result<bool, AllocError> {
    let calls = [call(Operation::Set, 1, 5), call(Operation::Get, 1, 0)];
    let items = [compares(0, 1, Test::Eq, 5)];
    is_answered(
        alloc,
        &TRecord::new(3, 7),
        &calls,
        &Reply::Value(5),
        &items,
        &[],
    )
}

// An add observes nothing, and goes round at the end of the numbers.
fn add_to_one(alloc: Global) -> Result<bool, AllocError> {
    let record = TRecord::new(2, i64::MAX);
    let add = [call(Operation::Add, 0, 1)];
    let written = is_answered(
        alloc,
        &record,
        &add,
        &Reply::Done,
        &[],
        &[(0, &[Change::Add(1), Change::Keep])],
    )?;
    let calls = [call(Operation::Add, 0, 1), call(Operation::Get, 0, 0)];
    let items = [compares(0, 0, Test::Eq, i64::MIN)];
    let round = is_answered(alloc, &record, &calls, &Reply::Value(i64::MIN), &items, &[])?;
    Ok(written && round)
}

fn none_there(alloc: Global) -> Result<bool, AllocError> {
    let record = TRecord::new(2, 0);
    let set_below = [call(Operation::Set, -1, 4)];
    let get_above = [call(Operation::Get, 2, 0)];
    let below = is_answered(alloc, &record, &set_below, &Reply::Absent, &[], &[])?;
    let above = is_answered(alloc, &record, &get_above, &Reply::Absent, &[], &[])?;
    Ok(below && above)
}

#[test]
fn record_walks(rt: HostRuntime) {
    let tallies = [
        walk_records(rt.alloc(), 1),
        walk_records(rt.alloc(), 3),
        walk_records(rt.alloc(), 0),
    ];
    assert_eq!(rt; tallies, [tally(129), tally(73), tally(173)]);
}

fn tally(absent: u32) -> Result<Tally, AllocError> {
    Ok(Tally {
        wrong: 0,
        full: 0,
        absent,
    })
}

fn walk_records(alloc: Global, width: u32) -> Result<Tally, AllocError>
    requires { width ≤ 100 }
{
    let mut random = Pcg32::new(u64::from(width), 1);
    let mut calls = Vec::new(alloc);
    for _ in 0..200 {
        calls.push(random_call(&mut random, width))?;
    }
    let mut words = BTreeMap::new(alloc);
    for place in 0..width {
        words.insert(i64::from(place), 9)?;
    }
    let mut plain = PlainRows {
        values: words,
        most: width as usize,
    };
    walk(alloc, &TRecord::new(width, 9), &mut plain, calls.as_slice())
}

// One index before the first word, one behind the last, and one number near the end of i64.
fn random_call(random: &mut Pcg32, width: u32) -> Call
    requires { width ≤ 100 }
{
    let index = i64::from(random.next_word() % (width + 2)) - 1;
    let other = i64::MAX - i64::from(random.next_word());
    match random.next_word() % 8 {
        0 => call(Operation::Scan, 0, 0),
        1..3 => call(Operation::Get, index, 0),
        3..5 => call(Operation::Set, index, other),
        _ => call(Operation::Add, index, other),
    }
}
