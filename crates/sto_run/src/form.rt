//! The report of a journal in a form.
ghost use Rattle.std.specs.Prelude.{◌≡◌, ℕ, map, IfOk};
ghost use Rattle.sto_lang.specs.Sound.{IsSound};
ghost use Rattle.sto_lang.specs.Views.{file as view};
ghost use Rattle.sto_journal.specs.Journals.{places, abort};
ghost use Rattle.sto_report_spec.specs.Lawful.{IsLawfulIn};
ghost use Rattle.sto_run.specs.Meanings.{updating_by};
ghost use Rattle.sto_run.specs.Stores.{means};
ghost use Rattle.sto_run.specs.Lawful.{IsLawfulJournal};
ghost use Rattle.sto_run.specs.Forms.{order_told, aborts_told, form_for};

use std::alloc::Global;
use sto_journal::Journal;
use sto_lang::{File, Text};
use sto_part::NoMemory;

/// The report of a lawful journal of a file, as a text or as one line of JSON. It is lawful for each number of tries for which
/// the journal is, and names the order and the aborted attempts of the journal.
pub fn report(alloc: Global, file: &File, journal: &Journal, json: bool) -> Result<Text, NoMemory>
    requires sound { IsSound (view file.now) }
    requires lawful { (tries : ℕ) × IsLawfulJournal (updating_by means) (view file.now) tries journal.now }
    ensures lawful { IfOk result (λ text. (tries : ℕ) → IsLawfulJournal (updating_by means) (view file.now) tries journal.now
        → IsLawfulIn (form_for json) (updating_by means) (view file.now) tries text.items) }
    ensures order { IfOk result (λ text. order_told (form_for json) (view file.now).names text.items ≡ places journal.now.lines.items) }
    ensures aborts { IfOk result (λ text. aborts_told (form_for json) (view file.now).names text.items
        ≡ map (abort (view file.now).declarations) journal.now.aborts.items) }
{
    if json {
        return Ok(sto_journal::json_report(alloc, file, journal)?);
    }
    Ok(sto_journal::report(alloc, file, journal)?)
}
