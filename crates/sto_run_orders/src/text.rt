//! Outcomes of orders as text.
ghost use Rattle.std.specs.Prelude.{◌≡◌, ◌++◌, flat_map, OnOk};
ghost use Rattle.std.specs.List.{enumerate_from};
ghost use Rattle.sto_lang.specs.Views.{file as view};
ghost use Rattle.sto_run_orders.specs.Reports.{entries_in};
ghost use Rattle.sto_run_orders.specs.Texts.{heading, report_text, schedule_line, sum_line, reports_text, asked_line, asked_text};

use crate::asked::Asking;
use crate::report::OrderReport;
use crate::words::{all_orders, has_schedule, push_asking, push_count, push_number, push_schedule};
use sto_lang::{File, Text};
use sto_part::NoMemory;

// Adds the line of the schedule of a report, where that has an entry.
fn push_schedule_line(out: &mut Text, file: &File, report: &OrderReport) -> Result<(), NoMemory>
    ensures { OnOk result (out.new.items ≡ out.old.items ++ schedule_line (view file.now) (entries_in report.now.schedule)) }
{
    if !has_schedule(report) {
        return Ok(());
    }
    push_schedule(out, file, report)?;
    out.append("\n")
}

// Adds the number of an outcome, and how many orders lead to it.
fn push_heading(out: &mut Text, number: u64, orders: Option<u64>) -> Result<(), NoMemory>
    ensures { OnOk result (out.new.items ≡ out.old.items ++ heading number orders) }
{
    out.append("outcome ")?;
    push_number(out, number)?;
    out.append(" orders ")?;
    push_count(out, orders)?;
    out.append("\n")
}

// Adds an outcome by its number.
fn push_report(
    out: &mut Text,
    file: &File,
    number: u64,
    report: &OrderReport,
) -> Result<(), NoMemory>
    ensures { OnOk result (out.new.items ≡ out.old.items ++ report_text (view file.now) (number, report.now)) }
{
    push_heading(out, number, report.orders)?;
    push_schedule_line(out, file, report)?;
    out.append("report\n")?;
    out.append(report.report.as_str())
}

// Adds outcomes, numbered from 1.
fn push_each(out: &mut Text, file: &File, reports: &[OrderReport]) -> Result<(), NoMemory>
    ensures { OnOk result (out.new.items ≡ out.old.items ++ flat_map (report_text (view file.now)) (enumerate_from 1 reports.now)) }
{
    for (place, report) in reports.iter().enumerate() {
        push_report(out, file, place as u64 + 1, report)?;
    }
    Ok(())
}

// Adds the line of the sums of outcomes.
fn push_sum(out: &mut Text, reports: &[OrderReport]) -> Result<(), NoMemory>
    ensures { OnOk result (out.new.items ≡ out.old.items ++ sum_line reports.now) }
{
    out.append("sum orders ")?;
    push_count(out, all_orders(reports))?;
    out.append(" outcomes ")?;
    push_number(out, reports.len() as u64)?;
    out.append("\n")
}

/// Adds the outcomes of the orders of a file, and the line of their sums.
pub(crate) fn push_text(
    out: &mut Text,
    file: &File,
    reports: &[OrderReport],
) -> Result<(), NoMemory>
    ensures { OnOk result (out.new.items ≡ out.old.items ++ reports_text (view file.now) reports.now) }
{
    push_each(out, file, reports)?;
    push_sum(out, reports)
}

// Adds the line of how many outcomes were asked for, of so many.
fn push_asked_line(
    out: &mut Text,
    asking: Asking,
    all: u64,
    kept: &[OrderReport],
) -> Result<(), NoMemory>
    ensures { OnOk result (out.new.items ≡ out.old.items ++ asked_line asking all kept.now) }
{
    push_asking(out, asking)?;
    out.append(" ")?;
    push_number(out, kept.len() as u64)?;
    out.append(" of ")?;
    push_number(out, all)?;
    out.append("\n")
}

/// Adds the outcomes that were asked for, of so many, and the line of how many they are.
pub(crate) fn push_asked_text(
    out: &mut Text,
    file: &File,
    asking: Asking,
    all: u64,
    kept: &[OrderReport],
) -> Result<(), NoMemory>
    ensures { OnOk result (out.new.items ≡ out.old.items ++ asked_text asking all (view file.now) kept.now) }
{
    push_each(out, file, kept)?;
    push_asked_line(out, asking, all, kept)
}
