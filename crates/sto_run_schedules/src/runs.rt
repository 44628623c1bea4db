//! A file that is run by one schedule after another.
ghost use Rattle.std.specs.Prelude.{◌≡◌, ◌≤◌, ◌<◌, [], length, IfOk, OnOk};
ghost use Rattle.sto_run_threads.specs.Plans.{plan_of};
ghost use Rattle.sto_run_threads.specs.Runs.{IsFinished};
ghost use Rattle.sto_run_threads.specs.Told.{told_in};
ghost use Rattle.sto_run_threads.specs.Worked.{AbortsNone};
ghost use Rattle.sto_run_steps.specs.Logged.{most_kept};
ghost use Rattle.sto_run.specs.Traced.{of_objects};

use crate::entries::entries_to_ends;
use crate::kept::{Kept, all_copied, report_again};
use crate::legs::{ends, past};
use crate::meter::Meter;
use crate::reported::reported;
use std::alloc::Global;
use sto_explore::{LastRun, Leg, Reported, RunError, Runs};
use sto_part::NoMemory;
use sto_run::{BorrowedFile, NoGate, OpenedRun};
use sto_run_steps::{SteppedWork, trace_threads};
use sto_run_threads::FinishedRun;
use sto_script::ScriptBody;
use sto_store::Objects;
use sto_transaction::Machine;

/// A file that can be run in one thread by any schedule, again and again, and the threads that have a transaction.
#[derive(Drop)]
pub(crate) struct FileRuns<'f, W: Meter> {
    pub(crate) run: &'f OpenedRun<'f, BorrowedFile<'f>, Objects, NoGate>,
    pub(crate) threads: Vec<u32>,
    /// Whether its reports are JSON.
    pub(crate) json: bool,
    pub(crate) meter: &'f W,
}

// More events than a run keeps: a thread that has so many turns comes to its end.
fn enough() -> u32
    ensures { most_kept < result }
{
    u32::MAX
}

impl<W: Meter> FileRuns<'_, W> {
    ghost use Rattle.sto_run_schedules.specs.Ready.{IsReady, objects_of, file_of, tries_of};
    ghost use Rattle.sto_run_schedules.specs.Remembered.{MakesReport, AreRemembered};

    // The report of a run that has finished. It is kept.
    fn new_report(
        &self,
        alloc: Global,
        kept: &mut Kept,
        finished: FinishedRun<Objects>,
    ) -> Result<Reported, NoMemory>
        requires ready { IsReady self.now }
        requires finished { IsFinished (plan_of of_objects (objects_of self.now) (file_of self.now) (tries_of self.now)) finished }
        requires alone { length (file_of self.now).threads ≤ 1 → AbortsNone [] (told_in finished.records) }
        requires remembered { AreRemembered self.now kept.old.reports.items }
        ensures report { IfOk result (MakesReport self.now (told_in finished.records)) }
        ensures remembered { OnOk result (AreRemembered self.now kept.new.reports.items) }
    {
        let run = self.run;
        let records = all_copied(alloc, finished.records.as_slice())?;
        let journal = run.journal(alloc, finished)?;
        let report = reported(alloc, run.work.workload.file, &journal, self.json)?;
        kept.remember(alloc, records, &report)?;
        Ok(report)
    }

    // The report of a run that has finished: that of an earlier one which left the same records, or a new one.
    #[tactic(auto, using(crate::proofs::Alike::records_same))]
    fn report_of(
        &self,
        alloc: Global,
        kept: &mut Kept,
        finished: FinishedRun<Objects>,
    ) -> Result<Reported, NoMemory>
        requires ready { IsReady self.now }
        requires finished { IsFinished (plan_of of_objects (objects_of self.now) (file_of self.now) (tries_of self.now)) finished }
        requires alone { length (file_of self.now).threads ≤ 1 → AbortsNone [] (told_in finished.records) }
        requires remembered { AreRemembered self.now kept.old.reports.items }
        ensures report { IfOk result (MakesReport self.now (told_in finished.records)) }
        ensures remembered { OnOk result (AreRemembered self.now kept.new.reports.items) }
    {
        for known in kept.reports.as_slice() {
            if known.records == finished.records {
                return report_again(alloc, &known.report);
            }
        }
        self.new_report(alloc, kept, finished)
    }
}

impl<W: Meter> Runs<Reported, Kept> for FileRuns<'_, W> {
    ghost use Rattle.sto_run_schedules.specs.Ready.{IsReady, Tells, Leads, IsLong};
    ghost use Rattle.sto_run_schedules.specs.Remembered.{Remembers};

    ghost ready = { IsReady };

    ghost threads = { λ r. r.threads.items };

    ghost tells = { Tells };

    ghost reports = { Leads };

    ghost too_long = { IsLong };

    ghost keeps = { Remembers };

    fn threads(&self) -> &[u32] {
        self.threads.as_slice()
    }

    fn run(
        &self,
        alloc: Global,
        kept: &mut Kept,
        decided: &[Leg],
        order: &[u32],
    ) -> Result<LastRun<Reported>, RunError> {
        let run = self.run;
        let most = enough();
        let entries = entries_to_ends(alloc, decided, order, most)?;
        let (finished, steps) = trace_threads::<Objects, Machine<'_, Objects, ScriptBody<'_>>, _>(
            &SteppedWork { work: &run.work },
            alloc,
            run.work.ty,
            &run.opening,
            entries.as_slice(),
            &mut kept.spare,
        )?;
        let Some(steps) = steps else {
            // Only of a run with its journal it is said that it was too long.
            run.journal(alloc, finished)?;
            return Err(RunError::TooLong);
        };
        let further = past(steps.as_slice(), decided);
        let legs = ends(alloc, further, order, most)?;
        kept.spare.keep_steps(steps);
        let report = self.report_of(alloc, kept, finished)?;
        self.meter.made();
        Ok(LastRun { legs, report })
    }
}
