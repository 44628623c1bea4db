//! Worked rows on the plain state: calls, what they answer, and the rows that they leave.
ghost use Rattle.std.specs.Prelude.{◌≡◌, length};

use crate::said::{Said, is_said};
use std::alloc::Global;
use sto_model::{Call, Operation, Shape, Shapes, State, takes};
use sto_part::NoMemory;

/// The number of the comparison `ge` in a test.
const GE: i64 = 5;

// A call of the one object by its operation and both numbers, and what it is to answer.
type Asked = (Operation, i64, i64, Said);

// Calls of one object, and the rows that they leave.
struct Case {
    shape: Shape,
    calls: &'static [Asked],
    rows: &'static [(i64, i64)],
}

const COUNTER: Case = Case {
    shape: Shape::Counter(2),
    calls: &[
        (Operation::Add, 1, 0, Said::Done),
        (Operation::Add, 3, 0, Said::Done),
        (Operation::Test, GE, 5, Said::Flag(true)),
        (Operation::Take, 5, 0, Said::Flag(true)),
    ],
    rows: &[(0, 1)],
};

const GREATEST_COUNTER: Case = Case {
    shape: Shape::Counter(9223372036854775807),
    calls: &[
        (Operation::Add, 1, 0, Said::Range),
        (Operation::Get, 0, 0, Said::Value(9223372036854775807)),
    ],
    rows: &[(0, 9223372036854775807)],
};

const BESIDE_AN_ARRAY: Case = Case {
    shape: Shape::Array { len: 2, value: 0 },
    calls: &[
        (Operation::Get, -1, 0, Said::Absent),
        (Operation::Get, 2, 0, Said::Absent),
        (Operation::Set, 2, 5, Said::Absent),
        (Operation::Get, 1, 0, Said::Value(0)),
    ],
    rows: &[(0, 0), (1, 0)],
};

const FULL_BUCKET: Case = Case {
    shape: Shape::Hash {
        buckets: 1,
        places: 2,
    },
    calls: &[
        (Operation::Put, 1, 1, Said::Done),
        (Operation::Put, 2, 2, Said::Done),
        (Operation::Put, 3, 3, Said::Full),
        (Operation::Remove, 1, 0, Said::Flag(true)),
        (Operation::Put, 3, 3, Said::Done),
    ],
    rows: &[(2, 2), (3, 3)],
};

const FULL_BUCKET_OF_TWO: Case = Case {
    shape: Shape::Hash {
        buckets: 2,
        places: 1,
    },
    calls: &[
        (Operation::Put, -1, 1, Said::Done),
        (Operation::Put, 1, 1, Said::Full),
        (Operation::Put, 0, 4, Said::Done),
    ],
    rows: &[(-1, 1), (0, 4)],
};

const SPLIT_AND_REPACK: Case = Case {
    shape: Shape::Tree { leaves: 3 },
    calls: &[
        (Operation::Put, 10, 10, Said::Done),
        (Operation::Put, 20, 20, Said::Done),
        (Operation::Put, 30, 30, Said::Done),
        (Operation::Put, 40, 40, Said::Done),
        (Operation::Put, 50, 50, Said::Done),
        (Operation::Put, 60, 60, Said::Done),
        (Operation::Put, 70, 70, Said::Done),
        (Operation::Put, 80, 80, Said::Done),
        (Operation::Put, 90, 90, Said::Done),
        (Operation::Remove, 10, 0, Said::Flag(true)),
        (Operation::Remove, 20, 0, Said::Flag(true)),
        (Operation::Remove, 30, 0, Said::Flag(true)),
        (Operation::Put, 100, 100, Said::Done),
        (Operation::Put, 110, 110, Said::Done),
        (Operation::Put, 120, 120, Said::Done),
        (Operation::Put, 130, 130, Said::Done),
        (Operation::Remove, 50, 0, Said::Flag(true)),
        (Operation::Remove, 60, 0, Said::Flag(true)),
        (Operation::Remove, 70, 0, Said::Flag(true)),
        (Operation::Put, 140, 140, Said::Done),
        (Operation::Put, 150, 150, Said::Done),
        (Operation::Put, 160, 160, Said::Done),
        (Operation::Put, 170, 170, Said::Done),
        (Operation::Next, 81, 0, Said::Value(90)),
        (Operation::Count, 40, 100, Said::Value(4)),
        (
            Operation::Scan,
            40,
            100,
            Said::Pairs(&[(40, 40), (80, 80), (90, 90), (100, 100)]),
        ),
    ],
    rows: &[
        (40, 40),
        (80, 80),
        (90, 90),
        (100, 100),
        (110, 110),
        (120, 120),
        (130, 130),
        (140, 140),
        (150, 150),
        (160, 160),
        (170, 170),
    ],
};

#[test]
fn worked_rows(rt: HostRuntime) {
    let alloc = rt.alloc();
    let cases = [
        is_answered(alloc, &COUNTER),
        is_answered(alloc, &GREATEST_COUNTER),
        is_answered(alloc, &BESIDE_AN_ARRAY),
        is_answered(alloc, &FULL_BUCKET),
        is_answered(alloc, &FULL_BUCKET_OF_TWO),
        is_answered(alloc, &SPLIT_AND_REPACK),
    ];
    assert_eq!(rt; cases, [Ok(true); 6]);
}

// Whether each call is taken and answered so, and the rows are left.
fn is_answered(alloc: Global, case: &Case) -> Result<bool, NoMemory> {
    let mut shapes = Shapes::new(alloc);
    shapes.push(case.shape)?;
    let mut state = State::opening(alloc, &shapes)?;
    let answered = are_answered(alloc, &shapes, &mut state, case.calls)?;
    Ok(answered && state.get(0).as_slice() == case.rows)
}

fn are_answered(
    alloc: Global,
    shapes: &Shapes,
    state: &mut State,
    calls: &[Asked],
) -> Result<bool, NoMemory>
    requires { length state.old.items ≡ length shapes.now.items }
    ensures { length state.new.items ≡ length state.old.items }
{
    for asked in calls {
        if !answers(alloc, shapes, state, asked)? {
            return Ok(false);
        }
    }
    Ok(true)
}

fn answers(
    alloc: Global,
    shapes: &Shapes,
    state: &mut State,
    asked: &Asked,
) -> Result<bool, NoMemory>
    requires { length state.old.items ≡ length shapes.now.items }
    ensures { length state.new.items ≡ length state.old.items }
{
    let call = Call::new(0, asked.0, asked.1, asked.2);
    Ok(takes(shapes, &call) && is_said(&state.ask(alloc, shapes, &call)?, &asked.3))
}
