//! What orders lead to.
ghost use Rattle.std.specs.Prelude.{◌≡◌, ℕ, IfOk};
ghost use Rattle.sto_lang.specs.Objects.{shapes_of};
ghost use Rattle.sto_lang.specs.Sound.{IsSound};
ghost use Rattle.sto_lang.specs.Views.{file as view};
ghost use Rattle.sto_orders.specs.Ways.{AreWays};
ghost use Rattle.sto_orders.specs.Levels.{AreLevel, IsLevel, IsNode, IsOutcomeAt, AreOutcomesAt};

use crate::level::Node;
use crate::same_by::SameBy;
use crate::way::{fewest_legs, run_along};
use std::alloc::Global;
use sto_checker::Progress;
use sto_journal::Lines;
use sto_lang::File;
use sto_model::{Shapes, State};
use sto_part::NoMemory;

/// What some orders lead to: the lines of one of them in the fewest legs, the state that it leaves, and how many orders they are. None
/// stands for 2^64 orders and more.
#[derive(Drop)]
pub struct Outcome {
    pub lines: Lines,
    pub state: State,
    pub orders: Option<u64>,
}

// The outcome of the orders that meet in a node.
fn outcome_at(
    alloc: Global,
    file: &File,
    shapes: &Shapes,
    by: SameBy,
    node: &Node,
) -> Result<Outcome, NoMemory>
    requires sound { IsSound (view file.now) }
    requires shapes { shapes.now.items ≡ shapes_of (view file.now).declarations }
    requires node { IsNode by (view file.now) node.now }
    ensures { IfOk result (λ o. (count : ℕ) → AreWays by (view file.now) count node.now.key node.now.ways
        → IsOutcomeAt by (view file.now) count node.now o) }
{
    let ways = node.ways.each.as_slice();
    let best = fewest_legs(ways);
    let order = ways[best].order.as_slice();
    let run = run_along(alloc, file, shapes, order)?;
    let Progress { lines, state, .. } = run;
    Ok(Outcome {
        lines,
        state,
        orders: node.ways.orders,
    })
}

/// The outcomes of the orders that meet in nodes.
pub(crate) fn outcomes_at(
    alloc: Global,
    file: &File,
    shapes: &Shapes,
    by: SameBy,
    nodes: &[Node],
) -> Result<Vec<Outcome>, NoMemory>
    requires sound { IsSound (view file.now) }
    requires shapes { shapes.now.items ≡ shapes_of (view file.now).declarations }
    requires level { IsLevel by (view file.now) nodes.now }
    ensures { IfOk result (λ outcomes. (count : ℕ) → AreLevel by (view file.now) count nodes.now
        → AreOutcomesAt by (view file.now) count nodes.now outcomes.items) }
{
    let mut outcomes = Vec::new(alloc);
    for node in nodes {
        let outcome = outcome_at(alloc, file, shapes, by, node)?;
        if outcomes.push(outcome).is_err() {
            return Err(NoMemory);
        }
    }
    Ok(outcomes)
}
