//! Ways to nodes.
ghost use Rattle.std.specs.Prelude.{◌≡◌, ◌+◌, ◌<◌, ◌≤◌, ◌^◌, ◌++◌, [], ◌∷◌, length, map, OnOk, IfOk, IfSome};
ghost use Rattle.sto_lang.specs.Objects.{shapes_of};
ghost use Rattle.sto_lang.specs.Views.{file as view};
ghost use Rattle.sto_journal.specs.Journals.{places};
ghost use Rattle.sto_checker.specs.Runnable.{IsRunnable};
ghost use Rattle.sto_checker.specs.Runs.{IsSoFar};
ghost use Rattle.sto_checker.specs.Shown.{AreInside};
ghost use Rattle.sto_orders.specs.Ways.{along, AreKept};

use std::alloc::{AllocError, Global};
use sto_checker::{Progress, TransactionPlace};
use sto_lang::File;
use sto_model::Shapes;
use sto_part::NoMemory;

/// The transactions that lead to a node, as they follow each other, and in how many legs of one thread each they do.
#[derive(Drop)]
pub(crate) struct Way {
    pub(crate) order: Vec<TransactionPlace>,
    pub(crate) legs: u32,
}

/// The ways that are kept to a node, at most one for each thread that comes last, and how many orders lead there. None stands for 2^64
/// orders and more.
#[derive(Drop)]
pub(crate) struct Ways {
    pub(crate) each: Vec<Way>,
    pub(crate) orders: Option<u64>,
}

// Whether the last of some transactions is one of a thread.
fn ends_with(order: &[TransactionPlace], thread: u32) -> bool {
    match order {
        [.., last] => last.thread == thread,
        [] => false,
    }
}

// In how many legs a way goes on with a transaction of a thread.
fn legs_after(way: &Way, thread: u32) -> u32 {
    if ends_with(way.order.as_slice(), thread) {
        way.legs
    } else {
        way.legs.saturating_add(1)
    }
}

/// The place of the way that goes on with a transaction of a thread in the fewest legs, of several the first.
pub(crate) fn best_way(ways: &[Way], thread: u32) -> usize
    requires { 1 ≤ length ways.now }
    ensures { result < length ways.now }
{
    let mut best = 0;
    for (place, way) in ways.iter().enumerate() {
        if legs_after(way, thread) < legs_after(&ways[best], thread) {
            best = place;
        }
    }
    best
}

/// The place of the way in the fewest legs, of several the first.
pub(crate) fn fewest_legs(ways: &[Way]) -> usize
    requires { 1 ≤ length ways.now }
    ensures { result < length ways.now }
{
    let mut best = 0;
    for (place, way) in ways.iter().enumerate() {
        if way.legs < ways[best].legs {
            best = place;
        }
    }
    best
}

/// The way with one more transaction.
pub(crate) fn longer(alloc: Global, way: &Way, at: TransactionPlace) -> Result<Way, NoMemory>
    ensures { IfOk result (λ longer. longer.order.items ≡ way.now.order.items ++ at ∷ []) }
{
    let legs = legs_after(way, at.thread);
    let mut order = match Vec::with_capacity(alloc, way.order.len().saturating_add(1)) {
        Ok(order) => order,
        Err(AllocError) => return Err(NoMemory),
    };
    match order.extend_from_slice(way.order.as_slice()) {
        Ok(()) => {}
        Err(AllocError) => return Err(NoMemory),
    }
    if order.push(at).is_err() {
        return Err(NoMemory);
    }
    Ok(Way { order, legs })
}

// Where the way is that ends with a transaction of a thread.
fn place_ending(ways: &[Way], thread: u32) -> Option<usize>
    ensures { IfSome result (λ place. place < length ways.now) }
{
    ways.iter()
        .position(|way| ends_with(way.order.as_slice(), thread))
}

// Puts a way in the place of one in more legs.
fn replace_longer(ways: &mut Vec<Way>, place: usize, way: Way)
    requires { place < length ways.old.items }
    ensures kept { AreKept ways.old.items way ways.new.items }
    ensures long { length ways.new.items ≡ length ways.old.items }
{
    if ways[place].legs <= way.legs {
        return;
    }
    ways[place] = way;
}

/// Keeps a way that ends with a transaction of a thread: beside those that end with others, or in place of one in more legs.
pub(crate) fn keep_way(ways: &mut Vec<Way>, way: Way, thread: u32) -> Result<(), NoMemory>
    ensures kept { OnOk result (AreKept ways.old.items way ways.new.items) }
    ensures some { OnOk result (1 ≤ length ways.new.items) }
{
    match place_ending(ways.as_slice(), thread) {
        Some(place) => {
            replace_longer(ways, place, way);
            Ok(())
        }
        None => match ways.push(way) {
            Ok(()) => Ok(()),
            Err(_) => Err(NoMemory),
        },
    }
}

/// Runs the transactions of a file in an order.
pub(crate) fn run_along(
    alloc: Global,
    file: &File,
    shapes: &Shapes,
    order: &[TransactionPlace],
) -> Result<Progress, NoMemory>
    requires runnable { IsRunnable (view file.now) }
    requires shapes { shapes.now.items ≡ shapes_of (view file.now).declarations }
    requires inside { AreInside (view file.now) (along order.now) }
    requires few { length order.now < 2 ^ 32 }
    ensures so_far { IfOk result (λ run. IsSoFar (view file.now) run.lines.items run.writers run.state.items) }
    ensures placed { IfOk result (λ run. places run.lines.items ≡ along order.now) }
{
    let mut run = Progress::opening(alloc, shapes)?;
    for at in order {
        run.run_one(alloc, file, shapes, at.thread, at.position)?;
    }
    Ok(run)
}
