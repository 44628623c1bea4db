//! The nodes after so many transactions.
ghost use Rattle.std.specs.Prelude.{◌≡◌, ◌≤◌, ℕ, suc, length, map, IfOk, IfErr};
ghost use Rattle.std.specs.List.Sorted.{IsStrictlySortedBy};
ghost use Rattle.sto_lang.specs.Objects.{shapes_of};
ghost use Rattle.sto_lang.specs.Sound.{IsSound};
ghost use Rattle.sto_lang.specs.Views.{file as view};
ghost use Rattle.sto_orders.specs.Keys.{key_cmp};
ghost use Rattle.sto_orders.specs.Ways.{HasNoSteps};
ghost use Rattle.sto_orders.specs.Levels.{AreLevel, IsLevel, node_of, AreTooMany, IsLevelCause};

use crate::found::go_on_from;
use crate::key::{Key, key_of};
use crate::limit::OrdersError;
use crate::same_by::SameBy;
use crate::way::{Way, Ways};
use std::alloc::{AllocError, Global};
use std::collections::BTreeMap;
use sto_checker::Progress;
use sto_lang::File;
use sto_model::Shapes;
use sto_part::NoMemory;

/// A node where orders meet: what they lead to, and ways to it.
#[derive(Drop)]
pub(crate) struct Node {
    pub(crate) key: Key,
    pub(crate) ways: Ways,
}

// The only way to the node before the first transaction.
fn no_steps(alloc: Global) -> Result<Ways, NoMemory>
    ensures { IfOk result HasNoSteps }
{
    let way = Way {
        order: Vec::new(alloc),
        legs: 0,
    };
    let mut each = Vec::new(alloc);
    if each.push(way).is_err() {
        return Err(NoMemory);
    }
    Ok(Ways {
        each,
        orders: Some(1),
    })
}

/// The only node before the first transaction.
pub(crate) fn opening_level(
    alloc: Global,
    file: &File,
    shapes: &Shapes,
    by: SameBy,
) -> Result<Vec<Node>, NoMemory>
    requires sound { IsSound (view file.now) }
    requires shapes { shapes.now.items ≡ shapes_of (view file.now).declarations }
    ensures { IfOk result (λ nodes. AreLevel by (view file.now) 0 nodes.items) }
{
    let run = Progress::opening(alloc, shapes)?;
    let lines = run.lines.as_slice();
    let key = key_of(alloc, file, by, lines, &run.state)?;
    let ways = no_steps(alloc)?;
    let node = Node { key, ways };
    let mut nodes = Vec::new(alloc);
    if nodes.push(node).is_err() {
        return Err(NoMemory);
    }
    Ok(nodes)
}

/// The nodes to which those of a level lead by one transaction more, where there are no more than may be.
pub(crate) fn next_level(
    alloc: Global,
    file: &File,
    shapes: &Shapes,
    by: SameBy,
    nodes: &[Node],
    room: u64,
) -> Result<Vec<Node>, OrdersError>
    requires sound { IsSound (view file.now) }
    requires shapes { shapes.now.items ≡ shapes_of (view file.now).declarations }
    requires level { IsLevel by (view file.now) nodes.now }
    ensures level { IfOk result (λ next. (count : ℕ) → AreLevel by (view file.now) count nodes.now
        → AreLevel by (view file.now) (suc count) next.items) }
    ensures few { IfOk result (λ next. length next.items ≤ room) }
    ensures cause { IfErr result (IsLevelCause by (view file.now) nodes.now room) }
{
    let mut found = BTreeMap::new(alloc);
    for node in nodes {
        go_on_from(alloc, file, shapes, by, node, &mut found)?;
    }
    let next = nodes_of(alloc, found, room)?;
    Ok(next)
}

// The nodes that were found, by rising keys, where there are no more than may be.
fn nodes_of(alloc: Global, found: BTreeMap<Key, Ways>, room: u64) -> Result<Vec<Node>, OrdersError>
    ensures each { IfOk result (λ nodes. nodes.items ≡ map node_of found.entries) }
    ensures apart { IfOk result (λ nodes. IsStrictlySortedBy key_cmp (map (λ p. p.key) nodes.items)) }
    ensures few { IfOk result (λ nodes. length nodes.items ≤ room) }
    ensures cause { IfErr result (AreTooMany found room) }
{
    if room < found.len() as u64 {
        return Err(OrdersError::TooMany);
    }
    let nodes = found
        .into_iter()
        .map(|(key, ways)| Node { key, ways })
        .collect(alloc);
    match nodes {
        Ok(nodes) => Ok(nodes),
        Err(AllocError) => Err(OrdersError::NoMemory),
    }
}
