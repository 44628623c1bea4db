//! A script thread on one pass.
ghost use Rattle.std.specs.Prelude.{◌≡◌, ◌≤◌, ◌+◌, ◌-◌, ◌*◌, IfOk, OnOk};
ghost use Rattle.sto_run_threads.specs.Plans.{MayDraw, transaction_count};
ghost use Rattle.sto_run_threads.specs.Told.{told_in};
ghost use Rattle.sto_run_threads.specs.Accounts.{Leads};
ghost use Rattle.sto_run_threads.specs.Ordered.{RunsInOrder};
ghost use Rattle.sto_run_threads.specs.Running.{ended_of};
ghost use Rattle.sto_run_threads.specs.Worked.{HasWorked, IsFresh, IsScriptRun};

use crate::one::Work;
use std::alloc::Global;
use sto_core::Cells;
use sto_part::{Naming, NoMemory};
use sto_transaction::{AttemptLists, Record};

/// Runs what is left of a script thread on an idle pass: of `count` transactions the first `ended` have ended.
/// It answers whether all have ended now. Else the next one is handed back, with all that follow.
pub fn run_script<T: Naming, W: Work<T>, C: Cells<T>>(
    work: &W,
    alloc: Global,
    cells: &mut C,
    thread: u32,
    ended: u32,
    count: u32,
    memory: &mut AttemptLists,
    records: &mut Vec<Record>,
) -> Result<bool, NoMemory>
    requires ready { W.ready work.now }
    requires count { (count ≡ transaction_count (W.plan work.now) thread) × (ended ≤ count) }
    requires ended { ended_of thread (told_in records.old) ≡ ended }
    requires fresh { IsFresh (W.plan work.now).tries (C.passes cells.old) thread (told_in records.old) }
    requires free { MayDraw (W.plan work.now) ((W.plan work.now).tries * (count - ended)) (C.view cells.old) }
    requires worked { HasWorked (W.plan work.now) (C.view cells.old) (told_in records.old) }
    ensures same { C.same cells.old cells.new }
    ensures leads { OnOk result (Leads (W.plan work.now) ((W.plan work.now).tries * (count - ended)) (C.view cells.old) (C.view cells.new)
        (told_in records.old) (told_in records.new)) }
    ensures ran { IfOk result (IsScriptRun (W.plan work.now) (C.passes cells.old) (C.view cells.new)
        thread (told_in records.old) (told_in records.new)) }
    ensures in_order { OnOk result (RunsInOrder (thread, ended + 1) (thread, count + 1) (told_in records.old) (told_in records.new)) }
{
    for position in ended..count {
        if !work.run_one(alloc, cells, thread, position + 1, memory, records)? {
            return Ok(false);
        }
    }
    Ok(true)
}
