//! The order in which a feeder sends the transactions of a file.
ghost use Rattle.std.specs.Prelude.{◌≤◌, ◌<◌, ℕ, IfOk, OnOk};
ghost use Rattle.std.specs.List.{All, AllPairs};
ghost use Rattle.sto_run_feed.specs.Orders.{places_in, Precedes, AreInTurn, HasRound};
ghost use Rattle.sto_run_threads.specs.Plans.{transaction_count};

use std::alloc::Global;
use sto_part::{Naming, NoMemory};
use sto_run_threads::Work;

/// A transaction, by the number of its thread, from 0, and its position in the thread, from 1.
#[derive(Clone, Copy, PartialEq, Eq)]
pub struct TransactionPlace {
    pub thread: u32,
    pub position: u32,
}

// How many transactions a thread has at most.
fn longest<T: Naming, W: Work<T>>(work: &W) -> u32
    ensures { (thread : ℕ) → transaction_count (W.plan work.now) thread ≤ result }
{
    let mut longest = 0;
    for thread in 0..work.threads() {
        longest = longest.max(work.count(thread));
    }
    longest
}

// Adds the transaction at a position of each thread, in rising thread number.
fn add_round<T: Naming, W: Work<T>>(
    work: &W,
    position: u32,
    order: &mut Vec<TransactionPlace>,
) -> Result<(), NoMemory>
    requires some { 1 ≤ position }
    requires earlier { All (λ p. p.position < position) order.old.items }
    requires rising { AllPairs Precedes (places_in order.old.items) }
    ensures { OnOk result (HasRound (transaction_count (W.plan work.now)) position order.old.items order.new.items) }
{
    for thread in 0..work.threads() {
        if position <= work.count(thread) {
            match order.push(TransactionPlace { thread, position }) {
                Ok(()) => {}
                Err(_) => return Err(NoMemory),
            }
        }
    }
    Ok(())
}

/// The transactions of a file in turn: position 1 of each script thread in rising thread number, then position 2, and so on.
pub fn in_turn<T: Naming, W: Work<T>>(
    work: &W,
    alloc: Global,
) -> Result<Vec<TransactionPlace>, NoMemory>
    ensures { IfOk result (λ order. AreInTurn (W.plan work.now).file (places_in order.items)) }
{
    let mut order = Vec::new(alloc);
    for earlier in 0..longest(work) {
        add_round(work, earlier + 1, &mut order)?;
    }
    Ok(order)
}
