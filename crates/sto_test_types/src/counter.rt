//! What adds and takes answer, observe and write, near the ends of the numbers of 64 bits.
use crate::alone::{Entry, NotRun, are_updates, replies, run_twice};
use std::alloc::Global;
use sto_counter::TCounter;
use sto_item::Item;
use sto_model::{Call, End, Operation, Reply};
use sto_part::{Change, NoMemory, Pred, Test};
use sto_test_alone::Ran;
use sto_type::TxType;

const MAX: i64 = i64::MAX;

const MIN: i64 = i64::MIN;

// A comparison of the counter with a bound, as it is observed.
macro_rules! seen {
    ($test:ident, $bound:expr) => {
        Item::Holds(Pred {
            part: 0,
            word: 0,
            shift: 0,
            test: Test::$test,
            bound: $bound,
        })
    };
}

#[derive(Clone, Copy)]
enum Said {
    Done,
    Range,
    Flag(bool),
}

// A call by its operation and number on a counter with this value, what it answers, the comparisons that it observes, and
// what it writes.
type Case = (Operation, i64, i64, Said, &'static [Item], &'static [Entry]);

const CASES: &[Case] = &[
    (
        Operation::Add,
        3,
        5,
        Said::Done,
        &[seen!(Le, MAX - 3)],
        &[(0, &[Change::Add(3)])],
    ),
    (
        Operation::Add,
        1,
        MAX,
        Said::Range,
        &[seen!(Gt, MAX - 1)],
        &[],
    ),
    (
        Operation::Add,
        -1,
        0,
        Said::Done,
        &[seen!(Ge, MIN + 1)],
        &[(0, &[Change::Add(-1)])],
    ),
    (
        Operation::Add,
        -1,
        MIN,
        Said::Range,
        &[seen!(Lt, MIN + 1)],
        &[],
    ),
    (
        Operation::Take,
        5,
        8,
        Said::Flag(true),
        &[seen!(Ge, 5)],
        &[(0, &[Change::Add(-5)])],
    ),
    (
        Operation::Take,
        5,
        3,
        Said::Flag(false),
        &[seen!(Lt, 5)],
        &[],
    ),
    (
        Operation::Take,
        MIN,
        -2,
        Said::Flag(true),
        &[seen!(Ge, MIN), seen!(Le, -1)],
        &[(0, &[Change::Add(MIN)])],
    ),
    (Operation::Take, MIN, 5, Said::Range, &[seen!(Gt, -1)], &[]),
];

#[test]
fn adds_and_takes(rt: HostRuntime) {
    for case in CASES {
        assert_eq!(rt; has_run(rt.alloc(), case), Ok(true));
    }
}

fn has_run(alloc: Global, case: &Case) -> Result<bool, NotRun> {
    let calls = [Call::new(0, case.0, case.1, 0)];
    let twice = run_twice(alloc, &TCounter::new(case.2), &calls, &[], End::Commit)?;
    Ok(is_said(&twice.first, case.3) && is_recorded(&twice.first, case.4, case.5))
}

fn is_said(ran: &Ran, said: Said) -> bool {
    match (replies(ran), said) {
        ([Reply::Done], Said::Done) | ([Reply::Range], Said::Range) => true,
        ([Reply::Flag(flag)], Said::Flag(wanted)) => *flag == wanted,
        _ => false,
    }
}

fn is_recorded(ran: &Ran, seen: &[Item], written: &[Entry]) -> bool {
    ran.items.as_slice() == seen && are_updates(&ran.updates, written)
}

#[test]
fn one_part(rt: HostRuntime) {
    let counter = TCounter::new(5);
    assert_eq!(rt; opens_with(rt.alloc(), &counter, &[5]), Ok(true));
    assert!(rt; !counter.takes(&Call::new(0, Operation::Test, 6, 0)));
}

// Whether these are the words of the first part.
fn opens_with(alloc: Global, counter: &TCounter, words: &[i64]) -> Result<bool, NoMemory> {
    let contents = counter.opening(alloc)?;
    Ok(contents.get(0).as_slice() == words)
}
