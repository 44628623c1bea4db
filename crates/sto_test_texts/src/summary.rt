//! A summary as it is printed.
ghost use Rattle.std.specs.Prelude.{◌≤◌, length, IfOk};

use std::alloc::Global;
use sto_bench::summary;
use sto_journal::{Aborts, Journal, Lines};
use sto_model::{Shape, Shapes, State};
use sto_part::NoMemory;

// The sum of the two accounts is above every i64 and u64 but one.
fn rich(alloc: Global) -> Result<State, NoMemory>
    ensures { IfOk result (λ s. 4 ≤ length s.items) }
{
    let accounts = Shape::Array {
        len: 2,
        value: i64::MAX,
    };
    let owners = Shape::Hash {
        buckets: 1,
        places: 1,
    };
    let mut shapes = Shapes::new(alloc);
    shapes.push(Shape::Counter(0))?;
    shapes.push(accounts)?;
    shapes.push(owners)?;
    shapes.push(Shape::Tree { leaves: 1 })?;
    State::opening(alloc, &shapes)
}

const LARGE_SUM: &str = "bench 7\ntransactions 0\nacct 18446744073709551614\nlog 0\nowner 0\n";

#[test]
fn large_sum(rt: HostRuntime) {
    assert_eq!(rt; is_summed(rt.alloc(), LARGE_SUM), Ok(true));
}

fn is_summed(alloc: Global, wanted: &str) -> Result<bool, NoMemory> {
    let journal = Journal {
        lines: Lines::new(alloc),
        aborts: Aborts::new(alloc),
        state: rich(alloc)?,
    };
    let text = summary(alloc, 7, &journal)?;
    Ok(text.as_str() == wanted)
}
