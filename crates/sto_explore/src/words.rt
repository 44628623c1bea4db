//! Numbers and reports that are added to a text.
ghost use Rattle.std.specs.Prelude.{◌≡◌, ◌++◌, true, OnOk, decimal};
ghost use Rattle.std.specs.List.{list_all};
ghost use Rattle.sto_lang.specs.Ascii.{is_ascii};
ghost use Rattle.sto_explore.specs.Texts.{without_end};

use itoa::Buffer;
use sto_lang::Text;
use sto_part::NoMemory;

/// Adds what is counted and its number.
pub(crate) fn push_count(out: &mut Text, counted: &str, count: u64) -> Result<(), NoMemory>
    requires { list_all is_ascii counted.now ≡ true }
    ensures { OnOk result (out.new.items ≡ out.old.items ++ (counted.now ++ decimal count)) }
{
    out.append(counted)?;
    let mut buffer = Buffer::new();
    out.append(buffer.format(count))
}

/// Adds a report. `NoMemory` comes also where it is not ASCII.
pub(crate) fn push_report(out: &mut Text, report: &str) -> Result<(), NoMemory>
    ensures { OnOk result (out.new.items ≡ out.old.items ++ report.now) }
{
    if report.is_ascii() {
        out.append(report)
    } else {
        Err(NoMemory)
    }
}

/// Adds a report without its last byte. `NoMemory` comes also where it is not ASCII.
pub(crate) fn push_without_end(out: &mut Text, report: &str) -> Result<(), NoMemory>
    ensures { OnOk result (out.new.items ≡ out.old.items ++ without_end report.now) }
{
    if report.is_ascii() {
        out.append(&report[..report.len().saturating_sub(1)])
    } else {
        Err(NoMemory)
    }
}
