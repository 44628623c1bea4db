//! Outcomes of orders as JSON.
ghost use Rattle.std.specs.Prelude.{◌≡◌, ◌∷◌, ◌++◌, map, OnOk};
ghost use Rattle.std.specs.List.{join_with_byte};
ghost use Rattle.sto_lang.specs.Views.{file as view};
ghost use Rattle.sto_run_orders.specs.declared.asked.Asking.TheVariants.{Where, Never};
ghost use Rattle.sto_run_orders.specs.Texts.{report_json, reports_json, of_json, asked_json};

use crate::asked::Asking;
use crate::report::OrderReport;
use crate::words::{all_orders, push_json_count, push_number, push_schedule, push_without_end};
use sto_lang::{File, Text};
use sto_part::NoMemory;

// Adds an outcome.
fn push_report(out: &mut Text, file: &File, report: &OrderReport) -> Result<(), NoMemory>
    ensures { OnOk result (out.new.items ≡ out.old.items ++ report_json (view file.now) report.now) }
{
    out.append("{\"orders\":")?;
    push_json_count(out, report.orders)?;
    out.append(",\"report\":")?;
    push_without_end(out, report.report.as_str())?;
    out.append(",\"schedule\":\"")?;
    push_schedule(out, file, report)?;
    out.append("\"}")
}

// Adds an outcome after a comma.
fn push_next(out: &mut Text, file: &File, report: &OrderReport) -> Result<(), NoMemory>
    ensures { OnOk result (out.new.items ≡ out.old.items ++ 44 ∷ report_json (view file.now) report.now) }
{
    out.append(",")?;
    push_report(out, file, report)
}

// Adds outcomes with a comma between each two.
fn push_each(out: &mut Text, file: &File, reports: &[OrderReport]) -> Result<(), NoMemory>
    ensures { OnOk result (out.new.items ≡ out.old.items ++ join_with_byte 44 (map (report_json (view file.now)) reports.now)) }
{
    let [first, others @ ..] = reports else {
        return Ok(());
    };
    push_report(out, file, first)?;
    for report in others {
        push_next(out, file, report)?;
    }
    Ok(())
}

/// Adds the outcomes of the orders of a file and how many orders there are, as one line.
pub(crate) fn push_json(
    out: &mut Text,
    file: &File,
    reports: &[OrderReport],
) -> Result<(), NoMemory>
    ensures { OnOk result (out.new.items ≡ out.old.items ++ reports_json (view file.now) reports.now) }
{
    out.append("{\"orders\":")?;
    push_json_count(out, all_orders(reports))?;
    out.append(",\"outcomes\":[")?;
    push_each(out, file, reports)?;
    out.append("]}\n")
}

// Adds of how many outcomes some were asked for, and these.
fn push_of(out: &mut Text, file: &File, all: u64, kept: &[OrderReport]) -> Result<(), NoMemory>
    ensures { OnOk result (out.new.items ≡ out.old.items ++ of_json all (view file.now) kept.now) }
{
    out.append("\"of\":")?;
    push_number(out, all)?;
    out.append(",\"outcomes\":[")?;
    push_each(out, file, kept)?;
    out.append("]")
}

// Adds the outcomes of which a question is true.
fn push_where(out: &mut Text, file: &File, all: u64, kept: &[OrderReport]) -> Result<(), NoMemory>
    ensures { OnOk result (out.new.items ≡ out.old.items ++ asked_json Where all (view file.now) kept.now) }
{
    out.append("{")?;
    push_of(out, file, all, kept)?;
    out.append(",\"where\":")?;
    push_number(out, kept.len() as u64)?;
    out.append("}\n")
}

// Adds the outcomes that must never be.
fn push_never(out: &mut Text, file: &File, all: u64, kept: &[OrderReport]) -> Result<(), NoMemory>
    ensures { OnOk result (out.new.items ≡ out.old.items ++ asked_json Never all (view file.now) kept.now) }
{
    out.append("{\"never\":")?;
    push_number(out, kept.len() as u64)?;
    out.append(",")?;
    push_of(out, file, all, kept)?;
    out.append("}\n")
}

/// Adds the outcomes that were asked for, of so many, as one line.
pub(crate) fn push_asked_json(
    out: &mut Text,
    file: &File,
    asking: Asking,
    all: u64,
    kept: &[OrderReport],
) -> Result<(), NoMemory>
    ensures { OnOk result (out.new.items ≡ out.old.items ++ asked_json asking all (view file.now) kept.now) }
{
    match asking {
        Asking::Where => push_where(out, file, all, kept),
        Asking::Never => push_never(out, file, all, kept),
    }
}
