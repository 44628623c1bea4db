//! The transactions of a file as work.
ghost use Rattle.std.specs.Prelude.{◌<◌};
ghost use Rattle.sto_run_threads.specs.Plans.{plan_of};
ghost use Rattle.sto_run_threads.specs.Taken.{IsTaken};

use crate::gate::Gate;
use crate::one::Work;
use crate::turn::{HeldTurn, RetryTurn};
use crate::workload::Workload;
use crossbeam_utils::Backoff;
use std::alloc::Global;
use std::mem;
use sto_core::Cells;
use sto_part::NoMemory;
use sto_transaction::{AttemptLists, AttemptWatch, Record, Transacted, Transaction};
use sto_type::TxType;

// An attempt of fewer events is short: to make one in vain costs less than to wait for the turn.
const SHORT: u64 = 2_000;

// How often a transaction looks whether the turn is free, before it goes on without it for good.
const LOOKS: u32 = 200_000;

// After how many of its first aborts a transaction of short attempts is soon tried again. Whoever is aborted more often meets others who
// want the same parts, and leaves the processor to them: attempts in vain, and parts that go from one processor to another, cost more.
const SOON: u32 = 1;

// How often the backoff is called then, each time for longer, so that the commits of others end.
const SNOOZES: u32 = 3;

// The short rests before the tries that are made soon.
#[derive(Drop)]
struct Snoozes {
    left: u32,
    backoff: Backoff,
}

impl Snoozes {
    // Takes a short rest, where one is left.
    fn take(&mut self) -> bool {
        if self.left == 0 {
            return false;
        }
        self.left -= 1;
        for _ in 0..SNOOZES {
            self.backoff.snooze();
        }
        true
    }
}

// Tells a gate how far a transaction is, takes the turn once a long attempt was aborted, and waits a while between two others.
#[derive(Drop)]
struct AtGate<'g, G> {
    gate: &'g G,
    thread: u32,
    position: u32,
    // How many events the attempt has made.
    events: u64,
    turn: &'g RetryTurn,
    held: Option<HeldTurn<'g>>,
    // How often it may still look whether the turn is free.
    looks: u32,
    snoozes: Snoozes,
}

impl<G: Gate> AttemptWatch for AtGate<'_, G> {
    fn before_event(&mut self, events: u64) {
        self.events = events;
        self.gate.during(self.thread, self.position, events);
    }

    fn before_retry(&mut self) {
        if self.events < SHORT || self.held.is_some() {
            if !self.snoozes.take() {
                self.gate.pause();
            }
            return;
        }
        for _ in 0..mem::replace(&mut self.looks, 0) {
            self.held = self.turn.take();
            if self.held.is_some() {
                return;
            }
            self.gate.pause();
        }
    }
}

/// A workload, the type of its objects, how many attempts of a transaction may be aborted, who is told, and whose turn it is once some were.
#[derive(Drop)]
pub struct FileWork<'f, F: Workload + Drop, T: TxType, G: Gate> {
    pub workload: F,
    pub ty: &'f T,
    pub tries: u32,
    pub gate: &'f G,
    pub turn: &'f RetryTurn,
}

impl<F: Workload + Drop, T: TxType, G: Gate> Work<T> for FileWork<'_, F, T, G> {
    ghost plan = { λ w. plan_of T.TxType w.ty.now (F.file w.workload) w.tries };

    ghost ready = { λ w. IsTaken (F.file w.workload) (T.meaning w.ty.now) × (0 < w.tries) };

    fn threads(&self) -> u32 {
        self.workload.threads()
    }

    fn count(&self, thread: u32) -> u32 {
        self.workload.count(thread)
    }

    fn run_one<C: Cells<T>>(
        &self,
        alloc: Global,
        cells: &mut C,
        thread: u32,
        position: u32,
        memory: &mut AttemptLists,
        records: &mut Vec<Record>,
    ) -> Result<bool, NoMemory> {
        if self.turn.is_stopped() {
            return Err(NoMemory);
        }
        self.gate.before(thread, position);
        let body = self.workload.transaction(alloc, thread, position);
        self.turn.note(&body);
        let body = body?;
        let transaction = Transaction {
            ty: self.ty,
            body,
            thread,
            position,
            tries: self.tries,
        };
        let mut watch = AtGate {
            gate: self.gate,
            thread,
            position,
            events: 0,
            turn: self.turn,
            held: None,
            looks: LOOKS,
            snoozes: Snoozes {
                left: SOON,
                backoff: Backoff::new(),
            },
        };
        let ran = transaction.run(alloc, cells, &mut watch, memory, records);
        // The gate may hold the worker, so the turn is given back first.
        mem::drop(watch);
        self.turn.note(&ran);
        let Transacted { ended, .. } = ran?;
        if ended {
            self.gate.after(thread, position);
        }
        Ok(ended)
    }
}
