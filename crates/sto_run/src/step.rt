//! Runs of whole files in one thread.
ghost use Rattle.std.specs.Prelude.{◌≡◌, ◌<◌, ◌≤◌, length, IfOk};
ghost use Rattle.std.specs.List.{All};
ghost use Rattle.sto_lang.specs.Sound.{IsSound, IsSchedule, IsFromTo};
ghost use Rattle.sto_lang.specs.Views.{file as view};
ghost use Rattle.sto_serializability.specs.Meanings.{updating_by};
ghost use Rattle.sto_store.specs.Stores.{means};
ghost use Rattle.sto_run.specs.Lawful.{IsLawfulJournal};
ghost use Rattle.sto_run.specs.Alone.{RanAlone};
ghost use Rattle.sto_run.specs.Traced.{IsStepped, turns_in};

use crate::opened::OpenedRun;
use crate::stored::objects_of;
use std::alloc::Global;
use sto_journal::Journal;
use sto_lang::{File, Turns};
use sto_part::NoMemory;
use sto_run_steps::{SteppedWork, step_threads};
use sto_run_threads::{BorrowedFile, NoGate, RetryTurn};
use sto_script::ScriptBody;
use sto_store::Objects;
use sto_transaction::Machine;

/// The entries of a file's schedule; none where it has no schedule.
pub(crate) fn turns_of(file: &File) -> &[Turns]
    requires { IsSchedule (length (view file.now).threads) (view file.now).schedule }
    ensures inside { All (λ turns. turns.thread < length (view file.now).threads) result.now }
    ensures same { result.now ≡ turns_in (view file.now).schedule }
{
    match &file.schedule {
        Some(schedule) => schedule.as_slice(),
        None => &[],
    }
}

/// Runs a file in one thread by its schedule, and gives the journal of the run. Its report in either form is lawful for the
/// file and so many tries of a transaction; where the file has at most one thread it tells no aborted attempt.
///
/// Each entry of the schedule lets a script thread make so many events; once it is used up, the threads that are left make one
/// event each, in rising number and again and again. What is handed back is run last, beside no other.
pub fn step_file(alloc: Global, file: &File, tries: u32) -> Result<Journal, NoMemory>
    requires sound { IsSound (view file.now) }
    requires tries { IsFromTo 1 64 tries }
    ensures lawful { IfOk result (IsLawfulJournal (updating_by means) (view file.now) tries) }
    ensures alone { length (view file.now).threads ≤ 1 → IfOk result (RanAlone (view file.now)) }
    // Each event was made in the turn of its thread, and the journal is that of this run.
    ensures stepped { IfOk result (IsStepped (view file.now) tries) }
{
    let file = BorrowedFile { file };
    let objects = objects_of(alloc, &file)?;
    let turn = RetryTurn::new();
    let run = OpenedRun::new(alloc, file, &objects, tries, &NoGate, &turn)?;
    let finished = step_threads::<Objects, Machine<'_, Objects, ScriptBody<'_>>, _>(
        &SteppedWork { work: &run.work },
        alloc,
        run.work.ty,
        &run.opening,
        turns_of(run.work.workload.file),
    )?;
    run.journal(alloc, finished)
}
