//! Runs of a file that was opened.
ghost use Rattle.std.specs.Prelude.{◌≡◌, ◌<◌, ◌++◌, [], ◌∷◌, length, IfOk, IfSome};
ghost use Rattle.std.specs.List.{All, AllZip};
ghost use Rattle.sto_run.specs.Forms.{form_for};
ghost use Rattle.sto_journal.specs.Journals.{HaveThreads};
ghost use Rattle.sto_orders.specs.Outcomes.{IsOrderOutcome};
ghost use Rattle.sto_run_orders.specs.Reports.{IsOutcomeReport};

use crate::events::{events_up_to, goes_on};
use crate::report::OrderReport;
use std::alloc::{AllocError, Global};
use sto_journal::{Aborts, Journal, Line};
use sto_lang::Turns;
use sto_orders::{Outcome, SameBy, leads_to};
use sto_part::NoMemory;
use sto_run::{BorrowedFile, NoGate, OpenedRun, report};
use sto_run_steps::{Spare, SteppedWork, trace_threads};
use sto_script::ScriptBody;
use sto_store::Objects;
use sto_trace::Steps;
use sto_transaction::Machine;

/// A file that can be run in one thread by any schedule, again and again; what outcomes are told apart by, and whether reports are JSON.
#[derive(Drop)]
pub(crate) struct OrderRuns<'f> {
    pub(crate) run: &'f OpenedRun<'f, BorrowedFile<'f>, Objects, NoGate>,
    pub(crate) by: SameBy,
    pub(crate) json: bool,
}

/// What a run did: its journal, and the steps of its threads in their order, or none where they were too many.
#[derive(Drop)]
pub(crate) struct SteppedRun {
    pub(crate) journal: Journal,
    pub(crate) steps: Option<Steps>,
}

/// The journal of a run, and the schedule by which it was made.
#[derive(Drop)]
pub(crate) struct LedRun {
    pub(crate) journal: Journal,
    pub(crate) schedule: Vec<Turns>,
}

// Some entries with one more.
fn with_entry(alloc: Global, entries: &[Turns], entry: Turns) -> Result<Vec<Turns>, NoMemory>
    ensures { IfOk result (λ more. more.items ≡ entries.now ++ entry ∷ []) }
{
    let mut more = match Vec::with_capacity(alloc, entries.len().saturating_add(1)) {
        Ok(more) => more,
        Err(AllocError) => return Err(NoMemory),
    };
    match more.extend_from_slice(entries) {
        Ok(()) => {}
        Err(AllocError) => return Err(NoMemory),
    }
    if more.push(entry).is_err() {
        return Err(NoMemory);
    }
    Ok(more)
}

impl OrderRuns<'_> {
    ghost use Rattle.sto_run_orders.specs.Ready.{IsReady, file_of, tries_of, IsRunOf, AreTurns, LeadsThere};

    // Runs the file by a schedule. That of the file itself is not used.
    fn run_by(
        &self,
        alloc: Global,
        schedule: &[Turns],
        spare: &mut Spare,
    ) -> Result<SteppedRun, NoMemory>
        requires ready { IsReady self.now }
        requires schedule { AreTurns self.now schedule.now }
        ensures { IfOk result (λ r. IsRunOf self.now schedule.now r.journal) }
    {
        let run = self.run;
        let (finished, steps) = trace_threads::<Objects, Machine<'_, Objects, ScriptBody<'_>>, _>(
            &SteppedWork { work: &run.work },
            alloc,
            run.work.ty,
            &run.opening,
            schedule,
            spare,
        )?;
        let journal = run.journal(alloc, finished)?;
        Ok(SteppedRun { journal, steps })
    }

    // The entry that lets the thread of a line go on after these entries, up to the end of that line's transaction. None where the run is
    // too long to be told.
    fn next_entry(
        &self,
        alloc: Global,
        entries: &[Turns],
        made: usize,
        line: &Line,
        spare: &mut Spare,
    ) -> Result<Option<Turns>, NoMemory>
        requires ready { IsReady self.now }
        requires entries { AreTurns self.now entries.now }
        requires thread { line.now.thread < length (file_of self.now).threads }
        ensures { IfOk result (λ entry. IfSome entry (λ turns. turns.thread ≡ line.now.thread)) }
    {
        let to_end = Turns {
            thread: line.thread,
            steps: u32::MAX,
        };
        let longer = with_entry(alloc, entries, to_end)?;
        let ran = self.run_by(alloc, longer.as_slice(), spare)?;
        let Some(steps) = &ran.steps else {
            return Ok(None);
        };
        let events = events_up_to(steps.as_slice(), made, line.thread, line.position);
        match u32::try_from(events) {
            Ok(steps) => Ok(Some(Turns {
                thread: line.thread,
                steps: steps.max(1),
            })),
            Err(_) => Ok(None),
        }
    }

    // The schedule by which the legs of an order, whose lines these are, are made one after the other. None where a run is too long to be
    // told.
    fn schedule_along(
        &self,
        alloc: Global,
        lines: &[Line],
        spare: &mut Spare,
    ) -> Result<Option<Vec<Turns>>, NoMemory>
        requires ready { IsReady self.now }
        requires lines { HaveThreads (length (file_of self.now).threads) lines.now }
        ensures { IfOk result (λ schedule. IfSome schedule (λ entries. AreTurns self.now entries.items)) }
    {
        let mut entries = Vec::new(alloc);
        let mut made: usize = 0;
        for (place, line) in lines.iter().enumerate() {
            if goes_on(lines, place) {
                continue;
            }
            let Some(entry) = self.next_entry(alloc, entries.as_slice(), made, line, spare)? else {
                return Ok(None);
            };
            made = made.saturating_add(entry.steps as usize);
            if entries.push(entry).is_err() {
                return Err(NoMemory);
            }
        }
        Ok(Some(entries))
    }

    // A run that leads to an outcome, where one is found.
    fn run_to(
        &self,
        alloc: Global,
        outcome: &Outcome,
        spare: &mut Spare,
    ) -> Result<Option<LedRun>, NoMemory>
        requires ready { IsReady self.now }
        requires outcome { IsOrderOutcome (file_of self.now) outcome.now }
        ensures { IfOk result (λ led. IfSome led (LeadsThere self.now outcome.now)) }
    {
        let Some(schedule) = self.schedule_along(alloc, outcome.lines.as_slice(), spare)? else {
            return Ok(None);
        };
        let ran = self.run_by(alloc, schedule.as_slice(), spare)?;
        let SteppedRun { journal, .. } = ran;
        let run = self.run;
        let file = run.work.workload.file;
        let same = leads_to(
            alloc,
            file,
            self.by,
            &journal.lines,
            &journal.state,
            outcome,
        )?;
        if !same {
            return Ok(None);
        }
        Ok(Some(LedRun { journal, schedule }))
    }

    // The report of the order of an outcome, without a run.
    fn report_of_order(&self, alloc: Global, outcome: Outcome) -> Result<OrderReport, NoMemory>
        requires ready { IsReady self.now }
        requires outcome { IsOrderOutcome (file_of self.now) outcome }
        ensures { IfOk result (IsOutcomeReport self.now.by (form_for self.now.json) (file_of self.now) (tries_of self.now) outcome) }
    {
        let Outcome {
            lines,
            state,
            orders,
        } = outcome;
        let journal = Journal {
            lines,
            aborts: Aborts::new(alloc),
            state,
        };
        let run = self.run;
        let text = report(alloc, run.work.workload.file, &journal, self.json)?;
        let Journal { state, .. } = journal;
        Ok(OrderReport {
            report: text,
            schedule: None,
            state,
            orders,
        })
    }

    // The report of an outcome: of a run that leads to it, where one is found.
    fn report_of(
        &self,
        alloc: Global,
        outcome: Outcome,
        spare: &mut Spare,
    ) -> Result<OrderReport, NoMemory>
        requires ready { IsReady self.now }
        requires outcome { IsOrderOutcome (file_of self.now) outcome }
        ensures { IfOk result (IsOutcomeReport self.now.by (form_for self.now.json) (file_of self.now) (tries_of self.now) outcome) }
    {
        let Some(led) = self.run_to(alloc, &outcome, spare)? else {
            return self.report_of_order(alloc, outcome);
        };
        let LedRun { journal, schedule } = led;
        let run = self.run;
        let text = report(alloc, run.work.workload.file, &journal, self.json)?;
        let Journal { state, .. } = journal;
        Ok(OrderReport {
            report: text,
            schedule: Some(schedule),
            state,
            orders: outcome.orders,
        })
    }

    /// The report of each outcome.
    pub(crate) fn reports_of(
        &self,
        alloc: Global,
        outcomes: Vec<Outcome>,
    ) -> Result<Vec<OrderReport>, NoMemory>
        requires ready { IsReady self.now }
        requires outcomes { All (IsOrderOutcome (file_of self.now)) outcomes.items }
        ensures { IfOk result (λ reports. AllZip (IsOutcomeReport self.now.by (form_for self.now.json) (file_of self.now) (tries_of self.now))
            outcomes.items reports.items) }
    {
        let mut spare = Spare::new(alloc);
        let mut reports = Vec::new(alloc);
        for outcome in outcomes {
            let report = self.report_of(alloc, outcome, &mut spare)?;
            if reports.push(report).is_err() {
                return Err(NoMemory);
            }
        }
        Ok(reports)
    }
}
