//! A run of a file, from its opening to its journal.
ghost use Rattle.std.specs.Prelude.{◌≡◌, ◌≤◌, [], IfOk};
ghost use Rattle.sto_lang.specs.Objects.{shapes_of};
ghost use Rattle.sto_lang.specs.Sound.{IsSound, IsFromTo};
ghost use Rattle.sto_journal.specs.Journals.{places};
ghost use Rattle.sto_serializability.specs.Meanings.{updating_by, IsTypeOf};
ghost use Rattle.sto_run_threads.specs.Plans.{plan_of};
ghost use Rattle.sto_run_threads.specs.Told.{told_in};
ghost use Rattle.sto_run_threads.specs.Taken.{IsTaken};
ghost use Rattle.sto_run_threads.specs.Ordered.{RanInTurn};
ghost use Rattle.sto_run_threads.specs.Worked.{AbortsNone};
ghost use Rattle.sto_run_threads.specs.Runs.{IsFinished};
ghost use Rattle.sto_run.specs.Lawful.{IsLawfulJournal};
ghost use Rattle.sto_run.specs.OfRecords.{IsOfRecords};
ghost use Rattle.sto_run.specs.Alone.{all_places};
ghost use Rattle.sto_run.specs.Runnable.{IsRunnable};

use crate::journal::journal_of;
use crate::whole::opening_of;
use std::alloc::Global;
use sto_journal::Journal;
use sto_part::{Contents, NoMemory};
use sto_run_threads::{FileWork, FinishedRun, Gate, RetryTurn, Workload};
use sto_type::TxType;

/// A run of a file that is to begin, where a type has its objects: its transactions as work, and the contents that the objects
/// open with.
#[derive(Drop)]
pub struct OpenedRun<'f, F: Workload + Drop, T: TxType, G: Gate> {
    pub work: FileWork<'f, F, T, G>,
    pub opening: Contents,
}

impl<'f, F: Workload + Drop, T: TxType, G: Gate> OpenedRun<'f, F, T, G> {
    /// Opens a run. What a type is to be for it, each mixture of lawful types with the objects of the file is. A transaction with so
    /// many aborted attempts is to be run last, beside no other, with all that follow in its thread. The gate is told before and after
    /// each transaction and before each event of an attempt.
    pub fn new(
        alloc: Global,
        file: F,
        ty: &'f T,
        tries: u32,
        gate: &'f G,
        turn: &'f RetryTurn,
    ) -> Result<OpenedRun<'f, F, T, G>, NoMemory>
        requires sound { IsSound (F.file file) }
        requires type_of { IsTypeOf (shapes_of (F.file file).declarations) (T.meaning ty.now) }
        requires taken { IsTaken (F.file file) (T.meaning ty.now) }
        requires tries { IsFromTo 1 64 tries }
        ensures of { IfOk result (λ r. (r.work.workload ≡ file) × (r.work.ty.now ≡ ty.entry.now) × (r.work.tries ≡ tries)) }
        ensures runnable { IfOk result (λ r. IsRunnable (plan_of T.TxType r.work.ty.now (F.file r.work.workload) r.work.tries) T.valid
            r.opening.items) }
    {
        let opening = opening_of(alloc, ty)?;
        let work = FileWork {
            workload: file,
            ty,
            tries,
            gate,
            turn,
        };
        Ok(OpenedRun { work, opening })
    }

    /// The journal of the run, once it has finished. It is lawful for the file and so many tries of a transaction, and tells no
    /// aborted attempt where there was none. It has the transactions in rising thread and then position where they were run so, one after
    /// the other. After `NoMemory` the records are given up.
    pub fn journal(&self, alloc: Global, finished: FinishedRun<T>) -> Result<Journal, NoMemory>
        requires sound { IsSound (F.file self.now.work.workload) }
        requires type_of { IsTypeOf (shapes_of (F.file self.now.work.workload).declarations) (T.meaning self.now.work.ty.now) }
        requires tries { self.now.work.tries ≤ 64 }
        requires finished { IsFinished (plan_of T.TxType self.now.work.ty.now (F.file self.now.work.workload) self.now.work.tries)
            finished }
        ensures lawful { IfOk result (IsLawfulJournal (updating_by (λ _. T.meaning self.now.work.ty.now)) (F.file self.now.work.workload)
            self.now.work.tries) }
        ensures alone { AbortsNone [] (told_in finished.records) → IfOk result (λ journal. journal.aborts.items ≡ []) }
        ensures in_turn { RanInTurn (plan_of T.TxType self.now.work.ty.now (F.file self.now.work.workload) self.now.work.tries)
            (told_in finished.records) → IfOk result (λ journal. places journal.lines.items ≡ all_places (F.file self.now.work.workload)) }
        ensures of_records { IfOk result (IsOfRecords (F.file self.now.work.workload) (T.meaning self.now.work.ty.now).homes
            (told_in finished.records)) }
    {
        let FinishedRun { records, words } = finished;
        journal_of(alloc, &self.work.workload, self.work.ty, &words, records)
    }
}
