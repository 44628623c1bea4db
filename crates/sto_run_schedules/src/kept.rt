//! What one run of a file keeps for the next one.
ghost use Rattle.std.specs.Prelude.{◌≡◌, [], map, IfOk, OnOk, string_bytes};
ghost use Rattle.sto_transaction.specs.Plain.{plain};
ghost use Rattle.sto_run_schedules.specs.Keeping.{Remembered};

use std::alloc::Global;
use sto_explore::Reported;
use sto_part::NoMemory;
use sto_run_steps::Spare;
use sto_trace::replies_past;
use sto_transaction::Record;

// How many reports are kept: to look through more would take longer than to make one.
const MOST_REPORTS: usize = 64;

/// The records of a run, and the report that they make.
#[derive(Drop)]
pub(crate) struct KeptReport {
    pub(crate) records: Vec<Record>,
    pub(crate) report: Reported,
}

/// What one run keeps for the next one: what it was lent, and reports that were made.
///
/// Most runs of an exploration leave records that an earlier one has left, and so have its report.
#[derive(Drop)]
pub(crate) struct Kept {
    pub(crate) spare: Spare,
    pub(crate) reports: Vec<KeptReport>,
}

impl Kept {
    /// Nothing yet.
    pub(crate) fn new(alloc: Global) -> Kept
        ensures { result.reports.items ≡ [] }
    {
        Kept {
            spare: Spare::new(alloc),
            reports: Vec::new(alloc),
        }
    }

    /// Keeps a report of these records, where there are not many yet.
    pub(crate) fn remember(
        &mut self,
        alloc: Global,
        records: Vec<Record>,
        report: &Reported,
    ) -> Result<(), NoMemory>
        ensures { OnOk result (Remembered records report.now self.old.reports.items self.new.reports.items) }
    {
        if self.reports.len() >= MOST_REPORTS {
            return Ok(());
        }
        let report = report_again(alloc, report)?;
        if self.reports.push(KeptReport { records, report }).is_err() {
            return Err(NoMemory);
        }
        Ok(())
    }
}

// The same record in room of its own.
fn copied(original: &Record) -> Result<Record, NoMemory>
    ensures { IfOk result (λ copy. plain copy ≡ plain original.now) }
{
    Ok(Record {
        thread: original.thread,
        position: original.position,
        replies: replies_past(&original.replies, 0)?,
        verdict: original.verdict,
    })
}

/// Copies of all these records.
pub(crate) fn all_copied(alloc: Global, records: &[Record]) -> Result<Vec<Record>, NoMemory>
    ensures { IfOk result (λ copies. map plain copies.items ≡ map plain records.now) }
{
    let mut copies = Vec::new(alloc);
    for original in records {
        if copies.push(copied(original)?).is_err() {
            return Err(NoMemory);
        }
    }
    Ok(copies)
}

/// The same report in room of its own.
pub(crate) fn report_again(alloc: Global, report: &Reported) -> Result<Reported, NoMemory>
    ensures text { IfOk result (λ copy. string_bytes copy.text ≡ string_bytes report.now.text) }
    ensures aborted { IfOk result (λ copy. copy.aborted ≡ report.now.aborted) }
{
    match String::from_str(alloc, report.text.as_str()) {
        Ok(text) => Ok(Reported {
            text,
            aborted: report.aborted,
        }),
        Err(_) => Err(NoMemory),
    }
}
