//! Runs of whole files in one thread whose steps are told.
ghost use Rattle.std.specs.Prelude.{◌≡◌, ◌≤◌, ◌<◌, length, map, IfOk};
ghost use Rattle.std.specs.List.{All};
ghost use Rattle.sto_lang.specs.Objects.{shapes_of};
ghost use Rattle.sto_lang.specs.Sound.{IsSound, IsFromTo};
ghost use Rattle.sto_lang.specs.Views.{file as view};
ghost use Rattle.sto_journal.specs.Journals.{home_pair};
ghost use Rattle.sto_serializability.specs.Meanings.{updating_by, IsTypeOf};
ghost use Rattle.sto_store.specs.Stores.{means};
ghost use Rattle.sto_run_threads.specs.Plans.{plan_of};
ghost use Rattle.sto_run_threads.specs.Taken.{IsTaken};
ghost use Rattle.sto_run_steps.specs.Logged.{kept};
ghost use Rattle.sto_run.specs.Lawful.{IsLawfulJournal};
ghost use Rattle.sto_run.specs.Alone.{RanAlone};
ghost use Rattle.sto_run.specs.Runnable.{IsRunnable};
ghost use Rattle.sto_run.specs.Traced.{IsRunBy, IsTraced, IsTraceOf};

use crate::opened::OpenedRun;
use crate::step::turns_of;
use crate::stored::objects_of;
use crate::whole::homes_of;
use std::alloc::Global;
use sto_journal::Journal;
use sto_lang::{File, Turns};
use sto_part::NoMemory;
use sto_run_steps::{Spare, SteppedWork, trace_threads};
use sto_run_threads::{BorrowedFile, Gate, NoGate, RetryTurn};
use sto_script::ScriptBody;
use sto_trace::Steps;
use sto_transaction::Machine;
use sto_type::{Home, TxType};

/// What a run in one thread did: its journal, the homes of all parts of its objects, and the steps of its threads in their order, or none
/// where they made too many.
#[derive(Drop)]
pub struct TracedRun {
    pub journal: Journal,
    pub homes: Vec<Home>,
    pub steps: Option<Steps>,
}

/// Runs a file in one thread as [`step_file`](crate::step_file) does, and tells its steps beside the journal. It tells none where they are
/// more than 100,000. What is handed back is run last, and its events are not among the steps.
pub fn trace_file(alloc: Global, file: &File, tries: u32) -> Result<TracedRun, NoMemory>
    requires sound { IsSound (view file.now) }
    requires tries { IsFromTo 1 64 tries }
    ensures lawful { IfOk result (λ r. IsLawfulJournal (updating_by means) (view file.now) tries r.journal) }
    ensures alone { length (view file.now).threads ≤ 1 → IfOk result (λ r. RanAlone (view file.now) r.journal) }
    // The steps are all events of the run by the schedule, and the journal is that of this run.
    ensures traced { IfOk result (λ r. IsTraceOf (view file.now) tries r.journal (map home_pair r.homes.items) (kept r.steps)) }
{
    let objects = objects_of(alloc, &BorrowedFile { file })?;
    let homes = homes_of(alloc, &objects)?;
    let (journal, steps) = trace_on(alloc, file, &objects, tries)?;
    Ok(TracedRun {
        journal,
        homes,
        steps,
    })
}

// Runs a file over its objects, and gives the journal and the steps.
fn trace_on<T: TxType>(
    alloc: Global,
    file: &File,
    ty: &T,
    tries: u32,
) -> Result<(Journal, Option<Steps>), NoMemory>
    requires sound { IsSound (view file.now) }
    requires type_of { IsTypeOf (shapes_of (view file.now).declarations) (T.meaning ty.now) }
    requires taken { IsTaken (view file.now) (T.meaning ty.now) }
    requires tries { IsFromTo 1 64 tries }
    ensures lawful { IfOk result (λ r. IsLawfulJournal (updating_by (λ _. T.meaning ty.now)) (view file.now) tries r.0) }
    ensures alone { length (view file.now).threads ≤ 1 → IfOk result (λ r. RanAlone (view file.now) r.0) }
    ensures traced { IfOk result (λ r. IsTraced T.TxType ty.now (view file.now) tries r.0 (kept r.1)) }
{
    let turn = RetryTurn::new();
    let run = OpenedRun::new(alloc, BorrowedFile { file }, ty, tries, &NoGate, &turn)?;
    let schedule = turns_of(run.work.workload.file);
    trace_opened(alloc, &run, schedule)
}

// Runs a file that was opened by a schedule, and gives the journal and the steps. The schedule of the file itself is not used.
fn trace_opened<'f, T: TxType, G: Gate>(
    alloc: Global,
    run: &'f OpenedRun<'f, BorrowedFile<'f>, T, G>,
    schedule: &[Turns],
) -> Result<(Journal, Option<Steps>), NoMemory>
    requires runnable { IsRunnable (plan_of T.TxType run.now.work.ty.now (view run.now.work.workload.file.now) run.now.work.tries)
        T.valid run.now.opening.items }
    requires schedule { All (λ turns. turns.thread < length (view run.now.work.workload.file.now).threads) schedule.now }
    ensures lawful { IfOk result (λ r. IsLawfulJournal (updating_by (λ _. T.meaning run.now.work.ty.now))
        (view run.now.work.workload.file.now) run.now.work.tries r.0) }
    ensures alone { length (view run.now.work.workload.file.now).threads ≤ 1
        → IfOk result (λ r. RanAlone (view run.now.work.workload.file.now) r.0) }
    ensures run_by { IfOk result (λ r. IsRunBy T.TxType run.now.work.ty.now (view run.now.work.workload.file.now) run.now.work.tries
        schedule.now r.0 (kept r.1)) }
{
    let (finished, steps) = trace_threads::<T, Machine<'_, T, ScriptBody<'_>>, _>(
        &SteppedWork { work: &run.work },
        alloc,
        run.work.ty,
        &run.opening,
        schedule,
        &mut Spare::new(alloc),
    )?;
    let journal = run.journal(alloc, finished)?;
    Ok((journal, steps))
}
