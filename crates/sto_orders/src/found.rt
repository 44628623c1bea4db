//! Nodes that are found by their keys.
ghost use Rattle.std.specs.Prelude.{◌≡◌, ◌+◌, ◌<◌, ◌≤◌, ◌∷◌, [], ℕ, List, None, Some, suc, length, OnOk, IfOk, IfSome};
ghost use Rattle.sto_lang.specs.Objects.{shapes_of};
ghost use Rattle.sto_lang.specs.Sound.{IsSound};
ghost use Rattle.sto_lang.specs.Views.{file as view};
ghost use Rattle.sto_report_spec.specs.Orders.{TransactionPlace as Place, count_in};
ghost use Rattle.sto_orders.specs.declared.same_by.SameBy.{SameBy};
ghost use Rattle.sto_orders.specs.Keys.{done_in, IsKeyOf};
ghost use Rattle.sto_orders.specs.Ways.{AreWays, IsWay, IsNextAt, LeadsOn};
ghost use Rattle.sto_orders.specs.Levels.{IsNode, AreFound, Keeps, HasNext, HasNextBelow, HasMoreWays, IsAdded};

use crate::key::{Key, key_of};
use crate::level::Node;
use crate::same_by::SameBy;
use crate::way::{Way, Ways, best_way, keep_way, longer, run_along};
use std::alloc::Global;
use std::collections::BTreeMap;
use sto_checker::TransactionPlace;
use sto_lang::File;
use sto_model::Shapes;
use sto_part::NoMemory;

// The number of orders with more of them.
fn more_orders(orders: Option<u64>, more: Option<u64>) -> Option<u64> {
    orders?.checked_add(more?)
}

// Keeps a way to a node that was found before, and counts its orders.
fn add_way(ways: &mut Ways, way: Way, thread: u32, orders: Option<u64>) -> Result<(), NoMemory>
    ensures { OnOk result (HasMoreWays (Some ways.old) way ways.new) }
{
    keep_way(&mut ways.each, way, thread)?;
    ways.orders = more_orders(ways.orders, orders);
    Ok(())
}

// The only way to a node.
fn first_way(alloc: Global, way: Way, orders: Option<u64>) -> Result<Ways, NoMemory>
    ensures { IfOk result (λ ways. ways.each.items ≡ way ∷ []) }
{
    let mut each = Vec::new(alloc);
    if each.push(way).is_err() {
        return Err(NoMemory);
    }
    Ok(Ways { each, orders })
}

// Adds a way to the node with a key.
fn add(
    alloc: Global,
    found: &mut BTreeMap<Key, Ways>,
    key: Key,
    way: Way,
    thread: u32,
    orders: Option<u64>,
) -> Result<(), NoMemory>
    ensures { OnOk result (IsAdded found.old found.new key way) }
{
    if let Some(ways) = found.get_mut(&key) {
        return add_way(ways, way, thread, orders);
    }
    let ways = first_way(alloc, way, orders)?;
    match found.insert(key, ways) {
        Ok(_) => Ok(()),
        Err(_) => Err(NoMemory),
    }
}

// The next transaction of a thread behind those that lead to the node with a key, where it has one.
fn next_at(file: &File, key: &Key, thread: u32) -> Option<TransactionPlace>
    requires thread { thread < length file.now.threads.items }
    requires done { length key.now.done.items ≡ length file.now.threads.items }
    ensures none { result ≡ None → (by : SameBy) (order : List Place) → IsKeyOf by (view file.now) order key.now
        → count_in (view file.now).threads thread ≤ done_in order thread }
    ensures some { IfSome result (λ at. (by : SameBy) → IsNextAt by (view file.now) key.now thread at) }
{
    let all = key.done.as_slice();
    let done = all[thread as usize];
    let count = file.threads.get(thread).scripts.len();
    if count <= done {
        return None;
    }
    Some(TransactionPlace {
        thread,
        position: done + 1,
    })
}

// A way, and the key of the node to which it leads.
#[derive(Drop)]
struct Step {
    way: Way,
    key: Key,
}

// Goes on from a node with the next transaction of a thread, by the best of its ways.
fn make_step(
    alloc: Global,
    file: &File,
    shapes: &Shapes,
    by: SameBy,
    node: &Node,
    thread: u32,
    at: TransactionPlace,
) -> Result<Step, NoMemory>
    requires sound { IsSound (view file.now) }
    requires shapes { shapes.now.items ≡ shapes_of (view file.now).declarations }
    requires node { IsNode by (view file.now) node.now }
    requires next { IsNextAt by (view file.now) node.now.key thread at }
    ensures way { IfOk result (λ step. (count : ℕ) → AreWays by (view file.now) count node.now.key node.now.ways
        → IsWay by (view file.now) (suc count) step.key step.way) }
    ensures leads { IfOk result (λ step. LeadsOn by (view file.now) node.now.key at step.key) }
{
    let ways = node.ways.each.as_slice();
    let best = best_way(ways, thread);
    let way = longer(alloc, &ways[best], at)?;
    let order = way.order.as_slice();
    let run = run_along(alloc, file, shapes, order)?;
    let lines = run.lines.as_slice();
    let key = key_of(alloc, file, by, lines, &run.state)?;
    Ok(Step { way, key })
}

// Goes on from a node with the next transaction of a thread, where it has one.
fn go_on(
    alloc: Global,
    file: &File,
    shapes: &Shapes,
    by: SameBy,
    node: &Node,
    thread: u32,
    found: &mut BTreeMap<Key, Ways>,
) -> Result<(), NoMemory>
    requires sound { IsSound (view file.now) }
    requires shapes { shapes.now.items ≡ shapes_of (view file.now).declarations }
    requires node { IsNode by (view file.now) node.now }
    requires thread { thread < length file.now.threads.items }
    ensures found { OnOk result ((count : ℕ) → AreWays by (view file.now) count node.now.key node.now.ways
        → AreFound by (view file.now) (suc count) found.old → AreFound by (view file.now) (suc count) found.new) }
    ensures keeps { OnOk result (Keeps by (view file.now) found.old found.new) }
    ensures next { OnOk result ((order : List Place) → IsKeyOf by (view file.now) order node.now.key
        → HasNext by (view file.now) found.new order thread) }
{
    match next_at(file, &node.key, thread) {
        None => Ok(()),
        Some(at) => {
            let onward = make_step(alloc, file, shapes, by, node, thread, at)?;
            let Step { way, key } = onward;
            add(alloc, found, key, way, thread, node.ways.orders)?;
            Ok(())
        }
    }
}

/// Goes on from a node with the next transaction of each thread.
pub(crate) fn go_on_from(
    alloc: Global,
    file: &File,
    shapes: &Shapes,
    by: SameBy,
    node: &Node,
    found: &mut BTreeMap<Key, Ways>,
) -> Result<(), NoMemory>
    requires sound { IsSound (view file.now) }
    requires shapes { shapes.now.items ≡ shapes_of (view file.now).declarations }
    requires node { IsNode by (view file.now) node.now }
    ensures found { OnOk result ((count : ℕ) → AreWays by (view file.now) count node.now.key node.now.ways
        → AreFound by (view file.now) (suc count) found.old → AreFound by (view file.now) (suc count) found.new) }
    ensures keeps { OnOk result (Keeps by (view file.now) found.old found.new) }
    ensures next { OnOk result (HasNextBelow by (view file.now) found.new node.now.key (length (view file.now).threads)) }
{
    for thread in 0..file.threads.len() {
        go_on(alloc, file, shapes, by, node, thread, found)?;
    }
    Ok(())
}
