//! Queues with the workers that take from them.
ghost use Rattle.std.specs.Prelude.{◌≡◌, ◌++◌, [], ◌∷◌, IfOk, OnOk};
ghost use Rattle.std.specs.List.{All};
ghost use Rattle.sto_run_threads.specs.Orders.{IsOrder};
ghost use Rattle.sto_run_threads.specs.Teams.{IsReady};
ghost use Rattle.sto_run_feed.specs.Orders.{places_in};
ghost use Rattle.sto_run_feed.specs.Stationed.{AreOpened};

use crate::jobs::jobs_of;
use crate::order::TransactionPlace;
use crate::pass::{JobPass, JobQueue};
use crate::queue::{OpenedQueue, open_queue};
use crate::server::QueueWorker;
use std::alloc::Global;
use sto_part::{Naming, NoMemory};
use sto_run_threads::Work;
use sto_table::{Rests, Shared};

/// Queues in the order of their numbers, the passes to send with, and the workers.
#[derive(Drop)]
pub struct Stations<T: Naming> {
    pub queues: Vec<JobQueue>,
    pub feeders: Vec<JobPass>,
    pub servers: Vec<QueueWorker<T>>,
}

/// Opens a queue for each pass, for the transactions that go to it in this order.
pub fn open_stations<T: Naming, W: Work<T>>(
    work: &W,
    alloc: Global,
    shared: &Shared<T>,
    order: &[TransactionPlace],
    rests: Rests<T>,
) -> Result<Stations<T>, NoMemory>
    requires order { IsOrder (W.plan work.now).file (places_in order.now) }
    requires ready { All (IsReady shared.now (W.plan work.now)) rests.items }
    ensures { IfOk result (AreOpened shared.now (W.plan work.now) order.now rests.items) }
{
    let mut rests = rests;
    let count = rests.len() as usize;
    let mut queues = Vec::new(alloc);
    let mut feeders = Vec::new(alloc);
    let mut servers = Vec::new(alloc);
    while let Some(rest) = rests.pop() {
        let number = queues.len();
        let jobs = jobs_of(alloc, order, count, number)?;
        let OpenedQueue {
            queue,
            feeder,
            worker,
        } = open_queue(alloc, &jobs)?;
        add(&mut queues, queue)?;
        add(&mut feeders, feeder)?;
        add(
            &mut servers,
            QueueWorker {
                number,
                worker,
                rest,
            },
        )?;
    }
    Ok(Stations {
        queues,
        feeders,
        servers,
    })
}

// Adds an item last.
fn add<X: Drop>(items: &mut Vec<X>, item: X) -> Result<(), NoMemory>
    ensures { OnOk result (items.new.items ≡ items.old.items ++ item ∷ []) }
{
    match items.push(item) {
        Ok(()) => Ok(()),
        Err(_) => Err(NoMemory),
    }
}
