//! All orders of a file, and runs that lead to their outcomes.
ghost use Rattle.std.specs.Prelude.{◌≤◌, ℕ, List, IfOk, OnOk, IfErr};
ghost use Rattle.std.specs.List.{All, AllZip};
ghost use Rattle.sto_lang.specs.Sound.{IsSound};
ghost use Rattle.sto_lang.specs.Views.{file as view};
ghost use Rattle.sto_report_spec.specs.Lawful.{IsLawfulIn};
ghost use Rattle.sto_run.specs.Meanings.{updating_by};
ghost use Rattle.sto_run.specs.Stores.{means};
ghost use Rattle.sto_run.specs.Forms.{form_for};
ghost use Rattle.sto_orders.specs.Causes.{least_told, IsCause};
ghost use Rattle.sto_orders.specs.Outcomes.{IsOrderOutcome};
ghost use Rattle.sto_run_orders.specs.Reports.{IsReportBy, HasTold, IsOutcomeReport, AreOrderReports, TellApart, IsAmong};

use crate::order::sort;
use crate::report::OrderReport;
use crate::runs::OrderRuns;
use std::alloc::Global;
use sto_lang::File;
use sto_orders::{OrdersError, Outcome, SameBy, all_outcomes};
use sto_part::NoMemory;
use sto_run::{BorrowedFile, NoGate, OpenedRun, objects_of};
use sto_run_threads::RetryTurn;

// How many aborted attempts a transaction may have where none is aborted: as many as where no number of tries is given.
const TRIES: u32 = 64;

// The report of each of the outcomes.
fn reports_of(
    alloc: Global,
    file: &File,
    by: SameBy,
    json: bool,
    outcomes: Vec<Outcome>,
) -> Result<Vec<OrderReport>, NoMemory>
    requires sound { IsSound (view file.now) }
    requires outcomes { All (IsOrderOutcome (view file.now)) outcomes.items }
    ensures { IfOk result (λ reports. AllZip (IsOutcomeReport by (form_for json) (view file.now) 64) outcomes.items reports.items) }
{
    let objects = objects_of(alloc, &BorrowedFile { file })?;
    let turn = RetryTurn::new();
    let lent = BorrowedFile { file };
    let opened = OpenedRun::new(alloc, lent, &objects, TRIES, &NoGate, &turn)?;
    let runs = OrderRuns {
        run: &opened,
        by,
        json,
    };
    runs.reports_of(alloc, outcomes)
}

/// What all orders of a file's transactions lead to, each outcome once, where at most so many nodes are needed: the report of a run that
/// leads there, with the schedule by which `step` makes that run, and how many orders lead there. Outcomes with the fewest entries come
/// first.
///
/// The errors are those of [`all_outcomes`].
pub fn explore_orders(
    alloc: Global,
    file: &File,
    by: SameBy,
    most: u64,
    json: bool,
) -> Result<Vec<OrderReport>, OrdersError>
    requires sound { IsSound (view file.now) }
    ensures reports { IfOk result (λ reports. AreOrderReports by (form_for json) (view file.now) 64 reports.items) }
    // Each is what `step` prints of the file with the schedule that stands with it.
    ensures each { IfOk result (λ reports. All (λ r. IsReportBy (form_for json) (view file.now) 64 r.report.items r.schedule) reports.items) }
    // The state beside each is the final state that it tells.
    ensures states { IfOk result (λ reports. All (HasTold (form_for json) (view file.now)) reports.items) }
    // No two tell the same.
    ensures distinct { IfOk result (λ reports. TellApart by (form_for json) (view file.now) reports.items) }
    // Each lawful report, and so what `run` and `step` print with any schedule, tries and threads, tells what one of these tells.
    ensures complete { IfOk result (λ reports. (tries : ℕ) (text : List ℕ)
        → IsLawfulIn (form_for json) (updating_by means) (view file.now) tries text
        → IsAmong by (form_for json) (view file.now) reports.items text) }
    ensures allowed { OnOk result (least_told (view file.now).threads ≤ most) }
    ensures cause { IfErr result (IsCause by (view file.now) most) }
{
    let outcomes = all_outcomes(alloc, file, by, most)?;
    let mut reports = reports_of(alloc, file, by, json, outcomes)?;
    sort(&mut reports)?;
    Ok(reports)
}
