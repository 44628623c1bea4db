//! Arrays and hash tables: what is set, and a bucket that is full or has a free place.
use crate::alone::{Entry, NotRun, are_updates, replies, run_twice};
use std::alloc::Global;
use sto_array::TArray;
use sto_hash::THash;
use sto_item::Item;
use sto_model::{Call, End, Operation, Reply};
use sto_part::{Change, NoMemory};
use sto_test_alone::Ran;
use sto_type::TxType;

#[test]
fn worked_rows(rt: HostRuntime) {
    let alloc = rt.alloc();
    let cases = [example_array(alloc), full_bucket(alloc), free_place(alloc)];
    assert_eq!(rt; cases, [Ok(true); 3]);
}

#[test]
fn parts_and_calls(rt: HostRuntime) {
    let (array, table) = (TArray::new(3, 7), THash::new(2, 1));
    assert_eq!(rt; [array.parts(), table.parts()], [3, 4]);
    let opened = [
        parts_at_opening(rt.alloc(), &array),
        parts_at_opening(rt.alloc(), &table),
    ];
    assert_eq!(rt; opened, [Ok(3), Ok(4)]);
    let taken = [
        array.takes(&Call::new(0, Operation::Test, 0, 0)),
        table.takes(&Call::new(0, Operation::Len, 0, 0)),
        table.takes(&Call::new(0, Operation::Set, 0, 0)),
    ];
    assert_eq!(rt; taken, [false, true, false]);
}

fn parts_at_opening<T: TxType>(alloc: Global, ty: &T) -> Result<u32, NoMemory> {
    Ok(ty.opening(alloc)?.parts())
}

const FIVE_AT_TWO: &[Entry] = &[(2, &[Change::Put(5)])];

fn example_array(alloc: Global) -> Result<bool, NotRun> {
    let set = [Call::new(0, Operation::Set, 2, 5)];
    let twice = run_twice(alloc, &TArray::new(3, 7), &[], &set, End::Commit)?;
    let said = matches!(replies(&twice.second), [Reply::Done]);
    Ok(said && has_recorded(&twice.second, &[], FIVE_AT_TWO))
}

const SEEN: &[Item] = &[Item::Seen(2)];

fn has_recorded(ran: &Ran, seen: &[Item], written: &[Entry]) -> bool {
    ran.items.as_slice() == seen && are_updates(&ran.updates, written)
}

// Of two buckets with one place each, the second has the odd keys.
fn full_bucket(alloc: Global) -> Result<bool, NotRun> {
    let (five, seven) = (
        [Call::new(0, Operation::Put, 5, 1)],
        [Call::new(0, Operation::Put, 7, 9)],
    );
    let twice = run_twice(alloc, &THash::new(2, 1), &five, &seven, End::Commit)?;
    let said = matches!(replies(&twice.second), [Reply::Full]);
    Ok(said && has_recorded(&twice.second, SEEN, &[]))
}

const NINE_AT_SEVEN: &[Entry] = &[
    (2, &[Change::Put(1), Change::Put(7)]),
    (3, &[Change::Put(9)]),
];

fn free_place(alloc: Global) -> Result<bool, NotRun> {
    let seven = [Call::new(0, Operation::Put, 7, 9)];
    let twice = run_twice(alloc, &THash::new(2, 1), &[], &seven, End::Commit)?;
    let said = matches!(replies(&twice.second), [Reply::Done]);
    Ok(said && has_recorded(&twice.second, SEEN, NINE_AT_SEVEN))
}
