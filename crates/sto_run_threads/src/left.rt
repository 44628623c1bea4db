//! What was handed back, on one pass.
ghost use Rattle.std.specs.Prelude.{◌≡◌, ◌<◌, ◌^◌, ℕ, [], ◌∷◌, if◌then◌else◌, map, OnOk};
ghost use Rattle.std.specs.List.{All};
ghost use Rattle.sto_transaction.specs.Plain.{plain};
ghost use Rattle.sto_history.specs.Records.{times_written};
ghost use Rattle.sto_history.specs.Counted.{times_committed};
ghost use Rattle.sto_run_threads.specs.Accounts.{AddsUp};
ghost use Rattle.sto_run_threads.specs.Plans.{Rests, MayDraw, IsPaced, draws_of, thread_count};
ghost use Rattle.sto_run_threads.specs.Told.{told_in};
ghost use Rattle.sto_run_threads.specs.Ordered.{RunsInOrder};
ghost use Rattle.sto_run_threads.specs.Running.{ended_of};
ghost use Rattle.sto_run_threads.specs.Worked.{HasWorked, AreWhole, WasFound, AbortsNone};

use crate::one::Work;
use crate::script::run_script;
use std::alloc::Global;
use sto_attempt::Verdict;
use sto_core::Cells;
use sto_part::{Naming, NoMemory};
use sto_transaction::{AttemptLists, Record};

// Whether an attempt is the last one of a transaction of the thread.
fn has_ended(attempt: &Record, thread: u32) -> bool
    ensures { ended_of thread (plain attempt.now ∷ []) ≡ (if result then 1 else 0) }
{
    match attempt.verdict {
        Verdict::Locked { .. } | Verdict::Changed { .. } => false,
        Verdict::Wrote { .. } | Verdict::Read { .. } | Verdict::Cancelled { .. } => {
            attempt.thread == thread
        }
    }
}

// How many transactions of the thread have ended.
fn count_ended(records: &[Record], thread: u32) -> u32
    requires { ended_of thread (map plain records.now) < 2 ^ 32 }
    ensures { result ≡ ended_of thread (map plain records.now) }
{
    let mut ended: usize = 0;
    for record in records {
        if has_ended(record, thread) {
            ended += 1;
        }
    }
    ended as u32
}

/// Runs what was handed back, in rising thread and position, on a pass beside which there is no other.
pub fn run_left<T: Naming, W: Work<T>, C: Cells<T>>(
    work: &W,
    alloc: Global,
    cells: &mut C,
    records: &mut Vec<Record>,
) -> Result<(), NoMemory>
    requires ready { W.ready work.now }
    requires alone { C.passes cells.old ≡ 1 }
    requires free { MayDraw (W.plan work.now) (draws_of (W.plan work.now)) (C.view cells.old) }
    requires worked { HasWorked (W.plan work.now) (C.view cells.old) (told_in records.old) }
    requires tickets { (t : ℕ) → times_written t (told_in records.old) ≡ times_committed t (C.view cells.old).entries }
    ensures same { C.same cells.old cells.new }
    ensures rests { OnOk result (Rests (W.plan work.now) (C.view cells.new)) }
    ensures adds_up { OnOk result (AddsUp (C.view cells.old) (C.view cells.new) (told_in records.old) (told_in records.new)) }
    ensures paced { OnOk result (IsPaced (W.plan work.now) (C.view cells.new)) }
    ensures none { OnOk result (AbortsNone (told_in records.old) (told_in records.new)) }
    ensures in_order { OnOk result (RunsInOrder (0, 0) (thread_count (W.plan work.now), 0) (told_in records.old) (told_in records.new)) }
    ensures found { OnOk result (All (WasFound (C.view cells.new)) (told_in records.new)) }
    ensures finished { OnOk result (AreWhole (W.plan work.now) (C.view cells.new) (told_in records.new)) }
{
    let mut memory = AttemptLists::new(alloc);
    for thread in 0..work.threads() {
        let count = work.count(thread);
        let ended = count_ended(records.as_slice(), thread);
        run_script(
            work,
            alloc,
            cells,
            thread,
            ended,
            count,
            &mut memory,
            records,
        )?;
    }
    Ok(())
}
