//! Every outcome of a file.
ghost use Rattle.std.specs.Prelude.{◌≡◌, ◌≤◌, IfOk, IfErr, max};
ghost use Rattle.sto_store.specs.ObjectShapes.{AreOf};
ghost use Rattle.sto_lang.specs.Objects.{shapes_of};
ghost use Rattle.sto_lang.specs.Sound.{IsSound, IsFromTo};
ghost use Rattle.sto_lang.specs.Views.{file as view};
ghost use Rattle.sto_run_threads.specs.Plans.{plan_of};
ghost use Rattle.sto_run.specs.Runnable.{IsRunnable};
ghost use Rattle.sto_run.specs.Traced.{of_objects};
ghost use Rattle.sto_run.specs.Forms.{form_for};
ghost use Rattle.sto_explore.specs.declared.exploration.ExploreError.TheVariants.{TooLong, TooMany};
ghost use Rattle.sto_run_schedules.specs.Explored.{AreOutcomesOf, AreReports, HasTooMany};
ghost use Rattle.sto_run_schedules.specs.Leading.{HasSomeLongRun};

use crate::busy::busy_threads;
use crate::kept::Kept;
use crate::meter::Meter;
use crate::runs::FileRuns;
use std::alloc::Global;
use sto_explore::{ExploreError, Outcomes, Tally, explore};
use sto_lang::File;
use sto_part::NoMemory;
use sto_run::{BorrowedFile, NoGate, OpenedRun, objects_of};
use sto_run_threads::RetryTurn;
use sto_store::Objects;

/// Runs a file in one thread by every schedule with at most so many switches away from a thread that could go on, and gathers the reports.
///
/// At most `limit` runs are made, but at least one. Where a schedule is left that none of them follows, this is `TooMany`. Where a run makes
/// more events than a run keeps, it is `TooLong`. The meter is told of each run.
pub fn explore_file<W: Meter>(
    alloc: Global,
    file: &File,
    tries: u32,
    switches: u32,
    limit: u32,
    json: bool,
    meter: &W,
) -> Result<Outcomes, ExploreError>
    requires sound { IsSound (view file.now) }
    requires tries { IsFromTo 1 64 tries }
    ensures outcomes { IfOk result (AreOutcomesOf (form_for json) (view file.now) tries switches) }
    ensures few { IfOk result (λ outcomes. outcomes.schedules ≤ max 1 limit) }
    // Each is what `step` prints of the file with a schedule that gives the turns of its legs.
    ensures reports { IfOk result (AreReports (form_for json) (view file.now) tries) }
    ensures too_many { IfErr result (λ why. why ≡ TooMany → HasTooMany (form_for json) (view file.now) tries switches limit) }
    ensures too_long { IfErr result (λ why. why ≡ TooLong → HasSomeLongRun tries (view file.now)) }
{
    let Ok(objects) = objects_of(alloc, &BorrowedFile { file }) else {
        return Err(ExploreError::NoMemory);
    };
    let turn = RetryTurn::new();
    let lent = BorrowedFile { file };
    let Ok(run) = OpenedRun::new(alloc, lent, &objects, tries, &NoGate, &turn) else {
        return Err(ExploreError::NoMemory);
    };
    explore_opened(alloc, &run, switches, limit, json, meter)
}

// Runs what was opened by every schedule.
fn explore_opened<'f, W: Meter>(
    alloc: Global,
    run: &'f OpenedRun<'f, BorrowedFile<'f>, Objects, NoGate>,
    switches: u32,
    limit: u32,
    json: bool,
    meter: &'f W,
) -> Result<Outcomes, ExploreError>
    requires runnable { IsRunnable (plan_of of_objects run.now.work.ty.now (view run.now.work.workload.file.now) run.now.work.tries)
        of_objects.valid run.now.opening.items }
    requires kinds { AreOf run.now.work.ty.now (shapes_of (view run.now.work.workload.file.now).declarations) }
    ensures outcomes { IfOk result (AreOutcomesOf (form_for json) (view run.now.work.workload.file.now) run.now.work.tries switches) }
    ensures few { IfOk result (λ outcomes. outcomes.schedules ≤ max 1 limit) }
    ensures too_many { IfErr result (λ why. why ≡ TooMany
        → HasTooMany (form_for json) (view run.now.work.workload.file.now) run.now.work.tries switches limit) }
    ensures too_long { IfErr result (λ why. why ≡ TooLong → HasSomeLongRun run.now.work.tries (view run.now.work.workload.file.now)) }
{
    let Ok(threads) = busy_threads(alloc, run.work.workload.file) else {
        return Err(ExploreError::NoMemory);
    };
    let runs = FileRuns {
        run,
        threads,
        json,
        meter,
    };
    let mut kept = Kept::new(alloc);
    let mut tally = Tally::new(alloc);
    explore(&runs, alloc, switches, limit, &mut kept, &mut tally)?;
    match tally.outcomes(alloc) {
        Ok(outcomes) => Ok(outcomes),
        Err(NoMemory) => Err(ExploreError::NoMemory),
    }
}
