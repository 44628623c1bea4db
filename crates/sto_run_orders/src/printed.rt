//! The outcomes of orders as they are printed.
ghost use Rattle.std.specs.Prelude.{◌≡◌, IfOk};
ghost use Rattle.sto_lang.specs.Views.{file as view};
ghost use Rattle.sto_run_orders.specs.Texts.{reports_in, asked_in};

use crate::asked::Asking;
use crate::json::{push_asked_json, push_json};
use crate::report::OrderReport;
use crate::text::{push_asked_text, push_text};
use std::alloc::Global;
use sto_lang::{File, Text};
use sto_part::NoMemory;

/// What `explore` prints of the outcomes of the orders of a file, as text or as one line of JSON.
pub fn reports_text(
    alloc: Global,
    file: &File,
    reports: &[OrderReport],
    json: bool,
) -> Result<Text, NoMemory>
    ensures { IfOk result (λ text. text.items ≡ reports_in json (view file.now) reports.now) }
{
    let mut out = Text::new(alloc);
    if json {
        push_json(&mut out, file, reports)?;
    } else {
        push_text(&mut out, file, reports)?;
    }
    Ok(out)
}

/// What `explore` prints of those outcomes alone that were asked for, of so many, as text or as one line of JSON.
pub fn asked_text(
    alloc: Global,
    file: &File,
    asking: Asking,
    all: u64,
    kept: &[OrderReport],
    json: bool,
) -> Result<Text, NoMemory>
    ensures { IfOk result (λ text. text.items ≡ asked_in json asking all (view file.now) kept.now) }
{
    let mut out = Text::new(alloc);
    if json {
        push_asked_json(&mut out, file, asking, all, kept)?;
    } else {
        push_asked_text(&mut out, file, asking, all, kept)?;
    }
    Ok(out)
}
