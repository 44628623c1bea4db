//! All orders of a file.
ghost use Rattle.std.specs.Prelude.{◌≡◌, ◌≤◌, IfOk, OnOk, IfErr};
ghost use Rattle.sto_lang.specs.Drafts.{transaction_count};
ghost use Rattle.sto_lang.specs.Sound.{IsSound};
ghost use Rattle.sto_lang.specs.Views.{file as view};
ghost use Rattle.sto_orders.specs.Outcomes.{AreOutcomes};
ghost use Rattle.sto_orders.specs.Causes.{least_told, IsCause};

use crate::level::{next_level, opening_level};
use crate::limit::{OrdersError, least_nodes};
use crate::outcome::{Outcome, outcomes_at};
use crate::same_by::SameBy;
use std::alloc::Global;
use sto_lang::File;

// How many transactions a file has.
fn transaction_count(file: &File) -> u32
    requires { IsSound (view file.now) }
    ensures { result ≡ transaction_count (view file.now).threads }
{
    let mut count = 0;
    for thread in file.threads.as_slice() {
        count += thread.scripts.len();
    }
    count
}

/// What all orders of a file's transactions lead to: each outcome once, where at most so many nodes are needed.
///
/// An order has each transaction of the file once, those of each thread in rising position. It is run on plain rows, one whole
/// transaction after the other. Beginnings of orders meet in a node where they have done the same transactions, and nothing that is
/// compared tells them apart.
///
/// `AtLeast` comes before any work, where the numbers of transactions of each thread, each with one more, have a product above `most`;
/// `TooMany` comes as soon as more nodes are found.
pub fn all_outcomes(
    alloc: Global,
    file: &File,
    by: SameBy,
    most: u64,
) -> Result<Vec<Outcome>, OrdersError>
    requires { IsSound (view file.now) }
    ensures outcomes { IfOk result (λ outcomes. AreOutcomes by (view file.now) outcomes.items) }
    ensures allowed { OnOk result (least_told (view file.now).threads ≤ most) }
    ensures cause { IfErr result (IsCause by (view file.now) most) }
{
    let least = least_nodes(file.threads.as_slice());
    if most < least {
        return Err(OrdersError::AtLeast(least));
    }
    let shapes = sto_lang::shapes(alloc, file)?;
    let mut nodes = opening_level(alloc, file, &shapes, by)?;
    let mut room = most.saturating_sub(1);
    let count = transaction_count(file);
    for _done in 0..count {
        let before = nodes.as_slice();
        let next = next_level(alloc, file, &shapes, by, before, room)?;
        room = room.saturating_sub(next.len() as u64);
        nodes = next;
    }
    let last = nodes.as_slice();
    let outcomes = outcomes_at(alloc, file, &shapes, by, last)?;
    Ok(outcomes)
}
