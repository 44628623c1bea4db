//! Numbers, schedules and reports that are added to a text.
ghost use Rattle.std.specs.Prelude.{◌≡◌, ◌+◌, ◌++◌, ◌^◌, not, nat_eq, OnOk, decimal, length};
ghost use Rattle.sto_lang.specs.Views.{file as view};
ghost use Rattle.sto_run_orders.specs.Reports.{entries_in};
ghost use Rattle.sto_run_orders.specs.Texts.{count_text, count_json, schedule_text, without_end, orders_at_least, told_below, all_orders, asking_word};

use crate::asked::Asking;
use crate::report::OrderReport;
use itoa::Buffer;
use sto_lang::{File, Text};
use sto_part::NoMemory;
use sto_write::push_entries;

/// Adds a number.
pub(crate) fn push_number(out: &mut Text, number: u64) -> Result<(), NoMemory>
    ensures { OnOk result (out.new.items ≡ out.old.items ++ decimal number) }
{
    let mut buffer = Buffer::new();
    out.append(buffer.format(number))
}

/// Adds a number of orders.
pub(crate) fn push_count(out: &mut Text, count: Option<u64>) -> Result<(), NoMemory>
    ensures { OnOk result (out.new.items ≡ out.old.items ++ count_text count) }
{
    match count {
        Some(number) => push_number(out, number),
        None => out.append("many"),
    }
}

/// Adds a number of orders as JSON.
pub(crate) fn push_json_count(out: &mut Text, count: Option<u64>) -> Result<(), NoMemory>
    ensures { OnOk result (out.new.items ≡ out.old.items ++ count_json count) }
{
    match count {
        Some(number) => push_number(out, number),
        None => out.append("\"many\""),
    }
}

/// Adds the word by which outcomes are asked for.
pub(crate) fn push_asking(out: &mut Text, asking: Asking) -> Result<(), NoMemory>
    ensures { OnOk result (out.new.items ≡ out.old.items ++ asking_word asking) }
{
    match asking {
        Asking::Where => out.append("where"),
        Asking::Never => out.append("never"),
    }
}

/// Whether a schedule is printed of a report: it has an entry.
pub(crate) fn has_schedule(report: &OrderReport) -> bool
    ensures { result ≡ not (nat_eq (length (entries_in report.now.schedule)) 0) }
{
    report.entries().len() != 0
}

/// Adds the schedule of a report, where it has an entry.
pub(crate) fn push_schedule(
    out: &mut Text,
    file: &File,
    report: &OrderReport,
) -> Result<(), NoMemory>
    ensures { OnOk result (out.new.items ≡ out.old.items ++ schedule_text (view file.now) (entries_in report.now.schedule)) }
{
    let entries = report.entries();
    if entries.is_empty() {
        return Ok(());
    }
    out.append("schedule")?;
    push_entries(out, file.version, file.threads.as_slice(), entries)
}

/// Adds a report without its last byte. `NoMemory` comes also where it is not ASCII.
pub(crate) fn push_without_end(out: &mut Text, report: &str) -> Result<(), NoMemory>
    ensures { OnOk result (out.new.items ≡ out.old.items ++ without_end report.now) }
{
    if report.is_ascii() {
        out.append(&report[..report.len().saturating_sub(1)])
    } else {
        Err(NoMemory)
    }
}

// A number of orders with more of them.
fn more_orders(orders: Option<u64>, more: Option<u64>) -> Option<u64>
    ensures { result ≡ told_below (2 ^ 64) (orders_at_least orders + orders_at_least more) }
{
    match (orders, more) {
        (Some(orders), Some(more)) => orders.checked_add(more),
        _ => None,
    }
}

/// How many orders lead to all of these.
pub(crate) fn all_orders(reports: &[OrderReport]) -> Option<u64>
    ensures { result ≡ all_orders reports.now }
{
    let mut orders = Some(0);
    for report in reports {
        orders = more_orders(orders, report.orders);
    }
    orders
}
