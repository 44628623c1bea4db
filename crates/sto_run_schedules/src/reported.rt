//! What a journal tells.
ghost use Rattle.std.specs.Prelude.{◌≡◌, ℕ, count_by, not, IfOk, string_bytes};
ghost use Rattle.sto_lang.specs.Sound.{IsSound};
ghost use Rattle.sto_lang.specs.Views.{file as view};
ghost use Rattle.sto_run.specs.Meanings.{updating_by};
ghost use Rattle.sto_run.specs.Stores.{means};
ghost use Rattle.sto_run.specs.Lawful.{IsLawfulJournal};
ghost use Rattle.sto_run.specs.Forms.{form_for};
ghost use Rattle.sto_run.specs.Stepped.{IsReportOf};
ghost use Rattle.sto_run_schedules.specs.Leading.{is_locked};

use std::alloc::Global;
use sto_explore::{Aborted, Reported};
use sto_journal::{AbortLine, Cause, Journal};
use sto_lang::File;
use sto_part::NoMemory;
use sto_run::report;

// Whether an attempt was aborted because a part was locked.
fn is_locked(line: &AbortLine) -> bool
    ensures { result ≡ is_locked line.now }
{
    match line.cause {
        Cause::Locked { .. } => true,
        Cause::Changed { .. } => false,
    }
}

// How many attempts were aborted, by cause.
fn aborted_in(aborts: &[AbortLine]) -> Aborted
    ensures locked { result.locked ≡ count_by is_locked aborts.now }
    ensures changed { result.changed ≡ count_by (λ line. not (is_locked line)) aborts.now }
{
    let locked = aborts.iter().filter(|line| is_locked(line)).count();
    let changed = aborts.iter().filter(|line| !is_locked(line)).count();
    Aborted {
        locked: locked as u64,
        changed: changed as u64,
    }
}

/// The report of a lawful journal of a file, and how many attempts it has aborted.
pub(crate) fn reported(
    alloc: Global,
    file: &File,
    journal: &Journal,
    json: bool,
) -> Result<Reported, NoMemory>
    requires sound { IsSound (view file.now) }
    requires lawful { (tries : ℕ) × IsLawfulJournal (updating_by means) (view file.now) tries journal.now }
    ensures report { IfOk result (λ r. (tries : ℕ) → IsLawfulJournal (updating_by means) (view file.now) tries journal.now
        → IsReportOf (form_for json) (view file.now) tries journal.now (string_bytes r.text)) }
    ensures locked { IfOk result (λ r. r.aborted.locked ≡ count_by is_locked journal.now.aborts.items) }
    ensures changed { IfOk result (λ r. r.aborted.changed ≡ count_by (λ line. not (is_locked line)) journal.now.aborts.items) }
{
    let told = report(alloc, file, journal, json)?;
    let Ok(text) = String::from_str(alloc, told.as_str()) else {
        return Err(NoMemory);
    };
    Ok(Reported {
        text,
        aborted: aborted_in(journal.aborts.as_slice()),
    })
}
