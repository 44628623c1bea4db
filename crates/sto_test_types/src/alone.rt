//! Transactions over boxes and over a mixture, with the replies and the final rows of worked rows.
ghost use Rattle.std.specs.Prelude.{◌≡◌, ◌<◌, ◌+◌, ◌^◌, length, IfOk, IsTrue, IfSome};
ghost use Rattle.std.specs.List.{All};

pub(crate) mod calls;
mod split;

use calls::Calls;
use split::Split;
use std::alloc::Global;
use sto_box::TBox;
use sto_item::{Item, Updates};
use sto_model::{Call, End, Operation, Reply, State};
use sto_part::{Change, NoMemory, Update};
use sto_test_alone::{Ran, run_alone};
use sto_type::{Both, Many, TxType};

/// Why two transactions were not run.
#[derive(Clone, Copy, PartialEq, Eq, Debug)]
pub(crate) enum NotRun {
    NoMemory,
    // A call is not taken.
    NotTaken,
}

impl From<NoMemory> for NotRun {
    fn from(_error: NoMemory) -> NotRun {
        NotRun::NoMemory
    }
}

// What two transactions did, one after the other, and the rows at the end.
#[derive(Drop)]
pub(crate) struct Twice {
    pub(crate) first: Ran,
    pub(crate) second: Ran,
    pub(crate) rows: State,
}

pub(crate) fn are_taken<T: TxType>(ty: &T, calls: &[Call]) -> bool
    ensures { IsTrue result → All (T.meaning ty.now).takes calls.now }
{
    calls.iter().all(|call| ty.takes(call))
}

// Runs two transactions from the opening contents; the first commits.
pub(crate) fn run_twice<T: TxType>(
    alloc: Global,
    ty: &T,
    first: &[Call],
    second: &[Call],
    end: End,
) -> Result<Twice, NotRun>
    requires first { length first.now < 2 ^ 32 }
    requires second { length second.now < 2 ^ 32 }
{
    if !are_taken(ty, first) || !are_taken(ty, second) || ty.parts() == u32::MAX {
        return Err(NotRun::NotTaken);
    }
    let mut contents = ty.opening(alloc)?;
    let first = run_alone(
        alloc,
        ty,
        &mut Calls::new(alloc, first, End::Commit)?,
        &mut contents,
    )?;
    let second = run_alone(
        alloc,
        ty,
        &mut Calls::new(alloc, second, end)?,
        &mut contents,
    )?;
    let rows = ty.rows_at(alloc, &contents, 0)?;
    Ok(Twice {
        first,
        second,
        rows,
    })
}

pub(crate) fn replies(ran: &Ran) -> &[Reply] {
    ran.outcome.replies.as_slice()
}

/// A part and the changes of its words.
pub(crate) type Entry = (u32, &'static [Change]);

/// Whether these are the updates.
pub(crate) fn are_updates(updates: &Updates, wanted: &[Entry]) -> bool {
    if updates.len() as usize != wanted.len() {
        return false;
    }
    for place in 0..updates.len() {
        if !is_entry(updates.get(place), &wanted[place as usize]) {
            return false;
        }
    }
    true
}

fn is_entry(update: &(u32, Update), wanted: &Entry) -> bool {
    update.0 == wanted.0 && update.1.as_slice() == wanted.1
}

// The rows of one object.
type ObjectRows = &'static [(i64, i64)];

fn are_rows(state: &State, wanted: &[ObjectRows]) -> bool {
    if state.len() as usize != wanted.len() {
        return false;
    }
    for object in 0..state.len() {
        if state.get(object).as_slice() != wanted[object as usize] {
            return false;
        }
    }
    true
}

pub(crate) fn boxes(alloc: Global, values: &[i64]) -> Result<Many<TBox<i64>>, NoMemory>
    requires { length values.now < 2 ^ 32 }
{
    let mut many = Many::new(alloc);
    for value in values {
        many.push(TBox::new(value))?;
    }
    Ok(many)
}

pub(crate) fn get(object: u32) -> Call {
    Call::new(object, Operation::Get, 0, 0)
}

pub(crate) fn set(object: u32, a: i64, b: i64) -> Call {
    Call::new(object, Operation::Set, a, b)
}

#[test]
fn worked_rows(rt: HostRuntime) {
    let alloc = rt.alloc();
    let cases = [
        example_one_get(alloc),
        no_object(alloc),
        set_then_get(alloc),
        own_writes(alloc),
        offsets_in_a_mixture(alloc),
        box_of_a_pair(alloc),
    ];
    assert_eq!(rt; cases, [Ok(true); 6]);
}

// Row "one get", and a transaction without calls before it.
fn example_one_get(alloc: Global) -> Result<bool, NotRun> {
    let boxes = boxes(alloc, &[5])?;
    let twice = run_twice(alloc, &boxes, &[], &[get(0)], End::Commit)?;
    Ok(is_one_get(&twice))
}

const SEEN_FIRST: &[Item] = &[Item::Seen(0)];

fn is_one_get(twice: &Twice) -> bool {
    twice.first.outcome.replies.len() == 0
        && matches!(replies(&twice.second), [Reply::Value(5)])
        && twice.second.items.as_slice() == SEEN_FIRST
        && are_rows(&twice.rows, ONE_BOX_OF_FIVE)
}

const ONE_BOX_OF_FIVE: &[ObjectRows] = &[&[(0, 5)]];

// Row "empty input".
fn no_object(alloc: Global) -> Result<bool, NotRun> {
    let none = boxes(alloc, &[])?;
    let twice = run_twice(alloc, &none, &[], &[], End::Commit)?;
    Ok(twice.rows.len() == 0 && is_refused(alloc, &none, get(0)))
}

fn is_refused<T: TxType>(alloc: Global, ty: &T, call: Call) -> bool {
    let ran = run_twice(alloc, ty, &[call], &[], End::Commit);
    matches!(ran, Err(NotRun::NotTaken))
}

// Row "set then get".
fn set_then_get(alloc: Global) -> Result<bool, NotRun> {
    let boxes = boxes(alloc, &[0, 3])?;
    let (first, second) = ([set(0, 7, 0)], [get(0), get(1)]);
    let twice = run_twice(alloc, &boxes, &first, &second, End::Commit)?;
    Ok(is_set_then_get(&twice))
}

const BOXES_OF_SEVEN_AND_THREE: &[ObjectRows] = &[&[(0, 7)], &[(0, 3)]];

fn is_set_then_get(twice: &Twice) -> bool {
    matches!(replies(&twice.first), [Reply::Done])
        && matches!(replies(&twice.second), [Reply::Value(7), Reply::Value(3)])
        && twice.second.updates.len() == 0
        && are_rows(&twice.rows, BOXES_OF_SEVEN_AND_THREE)
}

// Row "own writes" on a box: what a transaction has written whole it does not observe. Then a cancel.
fn own_writes(alloc: Global) -> Result<bool, NotRun> {
    let boxes = boxes(alloc, &[0])?;
    let (first, second) = ([set(0, 7, 0), get(0)], [set(0, 9, 0), get(0)]);
    let twice = run_twice(alloc, &boxes, &first, &second, End::Cancel)?;
    Ok(
        has_written_seven(&twice.first)
            && is_cancelled(&twice.second)
            && are_rows(&twice.rows, ONE_BOX_OF_SEVEN),
    )
}

const ONE_BOX_OF_SEVEN: &[ObjectRows] = &[&[(0, 7)]];

const PUT_SEVEN: &[Entry] = &[(0, &[Change::Put(7)])];

fn has_written_seven(ran: &Ran) -> bool {
    matches!(replies(ran), [Reply::Done, Reply::Value(7)])
        && ran.items.len() == 0
        && are_updates(&ran.updates, PUT_SEVEN)
}

fn is_cancelled(ran: &Ran) -> bool {
    matches!(replies(ran), [Reply::Done, Reply::Value(9)]) && ran.outcome.end == End::Cancel
}

const TEN_AND_TWENTY: &[i64] = &[10, 20];

pub(crate) fn mixture(alloc: Global) -> Result<Both<Many<TBox<i64>>, Many<Split>>, NoMemory> {
    let mut splits = Many::new(alloc);
    splits.push(Split::new(1, 2))?;
    splits.push(Split::new(3, 4))?;
    side_by_side(boxes(alloc, TEN_AND_TWENTY)?, splits)
}

// Two types side by side, where their sums are in range.
pub(crate) fn side_by_side<A: TxType + Drop, B: TxType + Drop>(
    first: A,
    second: B,
) -> Result<Both<A, B>, NoMemory> {
    if first.objects() > u32::MAX - second.objects() || first.parts() > u32::MAX - second.parts() {
        return Err(NoMemory);
    }
    Ok(Both::new(first, second))
}

// The second object of two parts stands behind two boxes and another such object: it is object 3, with parts 4 and 5.
fn offsets_in_a_mixture(alloc: Global) -> Result<bool, NotRun> {
    let mixture = mixture(alloc)?;
    let (first, second) = ([get(3), set(3, 30, 40), get(1)], [get(2), get(3)]);
    let twice = run_twice(alloc, &mixture, &first, &second, End::Commit)?;
    Ok(
        has_offsets(&mixture)
            && are_offset(&twice.first)
            && are_rows(&twice.rows, ROWS_OF_THE_MIXTURE),
    )
}

fn has_offsets<T: TxType>(ty: &T) -> bool {
    if ty.objects() != 4 || ty.parts() != 6 {
        return false;
    }
    let home = ty.home(5);
    (home.object, home.local) == (3, 1)
}

const SEEN: &[Item] = &[Item::Seen(4), Item::Seen(5), Item::Seen(1)];

const PUT: &[Entry] = &[(4, &[Change::Put(30)]), (5, &[Change::Put(40)])];

const ROWS_OF_THE_MIXTURE: &[ObjectRows] = &[
    &[(0, 10)],
    &[(0, 20)],
    &[(0, 1), (1, 2)],
    &[(0, 30), (1, 40)],
];

fn are_offset(ran: &Ran) -> bool {
    ran.items.as_slice() == SEEN && are_updates(&ran.updates, PUT)
}

type TPair = TBox<(i64, bool)>;

// A box of a value of two words.
fn box_of_a_pair(alloc: Global) -> Result<bool, NotRun> {
    let pair = TPair::new(&(0, false));
    let first = [TPair::set_call(0, &(7, true))];
    let twice = run_twice(alloc, &pair, &first, &[get(0)], End::Commit)?;
    Ok(
        matches!(replies(&twice.first), [Reply::Done])
            && is_one_pair(replies(&twice.second))
            && are_rows(&twice.rows, SEVEN_AND_TRUE),
    )
}

const SEVEN_AND_TRUE: &[ObjectRows] = &[&[(0, 7), (1, 1)]];

const SEVEN_AND_ONE: &[(i64, i64)] = &[(7, 1)];

fn is_one_pair(replies: &[Reply]) -> bool {
    match replies {
        [reply @ Reply::Pairs(pairs)] => {
            pairs.as_slice() == SEVEN_AND_ONE && TPair::read_reply(reply) == Some((7, true))
        }
        _ => false,
    }
}

// Words that are no code of a value are not taken.
#[test]
fn words_that_are_no_code(rt: HostRuntime) {
    let pair = TPair::new(&(0, false));
    assert!(rt; is_refused(rt.alloc(), &pair, set(0, 7, 2)));
}
