//! Runs that are still to be made.
ghost use Rattle.std.specs.Prelude.{◌≡◌, ◌++◌, ◌&&◌, [], ◌∷◌, length, map, drop, not, nat_eq, OnOk, IfOk};
ghost use Rattle.sto_explore.specs.Branches.{offer_of, offers_to, switches_in, offered};
ghost use Rattle.sto_explore.specs.Exploring.{ended, order_after};

use crate::leg::Leg;
use std::alloc::Global;
use sto_part::NoMemory;

/// A run that is to be made: its first legs, and the thread that goes on after them.
#[derive(Drop)]
pub(crate) struct Branch {
    pub(crate) decided: Vec<Leg>,
    pub(crate) next: u32,
    /// How many more switches may be made once that thread goes on.
    pub(crate) left: u32,
}

/// The threads that go on after these legs, this one first and the others as they are.
pub(crate) fn order_of(
    alloc: Global,
    threads: &[u32],
    decided: &[Leg],
    next: u32,
) -> Result<Vec<u32>, NoMemory>
    ensures { IfOk result (λ order. order.items ≡ order_after threads.now decided.now next) }
{
    let mut order = Vec::new(alloc);
    if order.push(next).is_err() {
        return Err(NoMemory);
    }
    for thread in threads {
        if goes_on(decided, next, *thread) && order.push(*thread).is_err() {
            return Err(NoMemory);
        }
    }
    Ok(order)
}

// Whether a thread can go on after these legs beside the next one.
fn goes_on(decided: &[Leg], next: u32, thread: u32) -> bool
    ensures { result ≡ (not (nat_eq thread next) && not (ended decided.now thread)) }
{
    thread != next && !is_over(decided, thread)
}

// Whether one of these legs led the thread to its end.
fn is_over(legs: &[Leg], thread: u32) -> bool
    ensures { result ≡ ended legs.now thread }
{
    for leg in legs {
        if leg.over && leg.thread == thread {
            return true;
        }
    }
    false
}

// The first legs of a run, with room for those that it is to end with: of these threads, and of one that they follow.
fn with_room(alloc: Global, decided: &[Leg], threads: &[u32]) -> Result<Vec<Leg>, NoMemory>
    ensures { IfOk result (λ legs. legs.items ≡ decided.now) }
{
    let room = decided
        .len()
        .saturating_add(threads.len())
        .saturating_add(1);
    let mut legs = match Vec::with_capacity(alloc, room) {
        Ok(legs) => legs,
        Err(_) => return Err(NoMemory),
    };
    match legs.extend_from_slice(decided) {
        Ok(()) => Ok(legs),
        Err(_) => Err(NoMemory),
    }
}

// Adds a branch for each of these threads.
fn offer(
    alloc: Global,
    todo: &mut Vec<Branch>,
    decided: &[Leg],
    left: u32,
    threads: &[u32],
) -> Result<(), NoMemory>
    ensures { OnOk result (map offer_of todo.new.items ≡ map offer_of todo.old.items ++ offers_to decided.now left threads.now) }
{
    for next in threads {
        let branch = Branch {
            decided: with_room(alloc, decided, threads)?,
            next: *next,
            left,
        };
        if todo.push(branch).is_err() {
            return Err(NoMemory);
        }
    }
    Ok(())
}

/// Adds a branch for each of these threads but the first, which goes on anyway.
pub(crate) fn offer_others(
    alloc: Global,
    todo: &mut Vec<Branch>,
    decided: &[Leg],
    left: u32,
    threads: &[u32],
) -> Result<(), NoMemory>
    ensures { OnOk result (map offer_of todo.new.items ≡ map offer_of todo.old.items ++ offers_to decided.now left (drop 1 threads.now)) }
{
    match threads.split_first() {
        Some((_, others)) => offer(alloc, todo, decided, left, others),
        None => Ok(()),
    }
}

// Adds a branch for each switch to one of these threads before the end of a leg. The legs that are decided stay the same.
fn offer_switches(
    alloc: Global,
    todo: &mut Vec<Branch>,
    decided: &mut Vec<Leg>,
    left: u32,
    threads: &[u32],
    leg: &Leg,
) -> Result<(), NoMemory>
    ensures todo { OnOk result (map offer_of todo.new.items
        ≡ map offer_of todo.old.items ++ switches_in decided.old.items left threads.now leg.now) }
    ensures same { OnOk result (decided.new.items ≡ decided.old.items) }
{
    if left == 0 {
        return Ok(());
    }
    let count = decided.len();
    for turns in 1..leg.turns {
        let part = Leg {
            thread: leg.thread,
            turns,
            over: false,
        };
        if decided.push(part).is_err() {
            return Err(NoMemory);
        }
        offer(alloc, todo, decided.as_slice(), left - 1, threads)?;
        decided.truncate(count);
    }
    Ok(())
}

/// Adds a branch for each place of these legs after the first turn and each thread that may go on there instead, and gives the legs
/// with those that are decided before them. They are the legs of the threads of the order.
pub(crate) fn offer_all(
    alloc: Global,
    todo: &mut Vec<Branch>,
    decided: Vec<Leg>,
    left: u32,
    order: &[u32],
    legs: &[Leg],
) -> Result<Vec<Leg>, NoMemory>
    requires { length order.now ≡ length legs.now }
    ensures todo { OnOk result (map offer_of todo.new.items
        ≡ map offer_of todo.old.items ++ offered decided.items left order.now legs.now) }
    ensures legs { IfOk result (λ all. all.items ≡ decided.items ++ legs.now) }
{
    let mut decided = decided;
    for (place, leg) in legs.iter().enumerate() {
        let others = &order[place + 1..];
        offer_switches(alloc, todo, &mut decided, left, others, leg)?;
        if decided.push(*leg).is_err() {
            return Err(NoMemory);
        }
        offer_others(alloc, todo, decided.as_slice(), left, others)?;
    }
    Ok(decided)
}
