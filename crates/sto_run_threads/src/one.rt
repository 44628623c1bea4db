//! A run of one transaction.
ghost use Rattle.std.specs.Prelude.{◌≡◌, ◌<◌, IfOk, OnErr};
ghost use Rattle.sto_run_threads.specs.Plans.{Plan, MayDraw, thread_count, transaction_count};
ghost use Rattle.sto_run_threads.specs.Told.{told_in};
ghost use Rattle.sto_run_threads.specs.Ran.{IsTransaction, HasRunAt, HasBrokenAt};

use std::alloc::Global;
use sto_core::Cells;
use sto_part::{Naming, NoMemory};
use sto_transaction::{AttemptLists, Record};

/// What runs transactions of a file, by attempts.
pub trait Work<T: Naming> {
    /// The file, what the type of its objects means, its sizes, and how many attempts of a transaction may be aborted.
    ghost plan: { Self → Plan };

    /// What a run of a transaction asks of it.
    ghost ready: { Self → Type 0 };

    /// How many script threads the file has.
    fn threads(&self) -> u32
        ensures { result ≡ thread_count (plan self.now) };

    /// How many transactions a script thread has.
    fn count(&self, thread: u32) -> u32
        requires { thread < thread_count (plan self.now) }
        ensures { result ≡ transaction_count (plan self.now) thread };

    /// Runs the transaction at a place on an idle pass, and adds a record for each attempt. It answers whether the
    /// transaction has ended, or used up its tries. After `NoMemory` the pass is idle again, and the records of the attempts before
    /// stay. The memory is lent to each attempt in turn.
    fn run_one<C: Cells<T>>(
        &self,
        alloc: Global,
        cells: &mut C,
        thread: u32,
        position: u32,
        memory: &mut AttemptLists,
        records: &mut Vec<Record>,
    ) -> Result<bool, NoMemory>
        requires ready { ready self.now }
        requires there { IsTransaction (plan self.now).file (thread, position) }
        requires free { MayDraw (plan self.now) (plan self.now).tries (C.view cells.old) }
        ensures same { C.same cells.old cells.new }
        ensures ran { IfOk result (HasRunAt (plan self.now) (C.passes cells.old) (C.view cells.old) (C.view cells.new)
            (thread, position) (told_in records.old) (told_in records.new)) }
        ensures err { OnErr result (HasBrokenAt (plan self.now) (C.view cells.old) (C.view cells.new)
            (thread, position) (told_in records.old) (told_in records.new)) };
}
