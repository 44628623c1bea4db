//! The journal of a finished run.
ghost use Rattle.std.specs.Prelude.{◌≡◌, ◌≤◌, ℕ, [], length, map, IfOk};
ghost use Rattle.sto_lang.specs.Objects.{shapes_of};
ghost use Rattle.sto_lang.specs.Sound.{IsSound};
ghost use Rattle.sto_plain.specs.Passes.{view_of};
ghost use Rattle.sto_history.specs.Records.{TransactionPlace};
ghost use Rattle.sto_journal.specs.Journals.{places};
ghost use Rattle.sto_run_threads.specs.Ordered.{RunsInOrder};
ghost use Rattle.sto_serializability.specs.Finished.{AreFinished};
ghost use Rattle.sto_serializability.specs.Meanings.{updating_by, IsTypeOf};
ghost use Rattle.sto_transaction.specs.Plain.{plain};
ghost use Rattle.sto_transaction.specs.Resting.{IsAtRest};
ghost use Rattle.sto_run.specs.Lawful.{IsLawfulJournal};
ghost use Rattle.sto_run.specs.OfRecords.{IsOfRecords};
ghost use Rattle.sto_run.specs.Alone.{all_places};

use crate::merging::merge;
use crate::whole::{homes_of, rows_of};
use std::alloc::Global;
use sto_journal::Journal;
use sto_part::NoMemory;
use sto_plain::Plain;
use sto_run_threads::Workload;
use sto_transaction::Record;
use sto_type::TxType;

/// The journal of the records of one finished run of a file, whose words have one pass left, which knows all that the
/// passes of the run knew. Its report in either form is lawful for the file and the number of tries of the run, and its state is the rows
/// of the contents that the words hold.
/// After `NoMemory` the records are given up.
pub fn journal_of<F: Workload, T: TxType>(
    alloc: Global,
    file: &F,
    ty: &T,
    words: &Plain<T>,
    records: Vec<Record>,
) -> Result<Journal, NoMemory>
    requires sound { IsSound (F.file file.now) }
    requires type_of { IsTypeOf (shapes_of (F.file file.now).declarations) (T.meaning ty.now) }
    requires one { (length words.now.views ≡ 1) × (length words.now.statuses ≡ 1) }
    requires rests { IsAtRest (T.meaning ty.now) (T.sizes ty.now) (view_of words.now 0) }
    requires finished { (tries : ℕ) × (tries ≤ 64) × AreFinished (T.meaning ty.now) (F.file file.now) tries (view_of words.now 0)
        (map plain records.items) }
    ensures lawful { IfOk result (λ journal. (tries : ℕ) → AreFinished (T.meaning ty.now) (F.file file.now) tries (view_of words.now 0)
        (map plain records.items)
        → IsLawfulJournal (updating_by (λ _. T.meaning ty.now)) (F.file file.now) tries journal) }
    // Transactions that were run one after the other, in rising thread and then position, stand so in it.
    ensures in_turn { (from to : TransactionPlace) → RunsInOrder from to [] (map plain records.items)
        → IfOk result (λ journal. places journal.lines.items ≡ all_places (F.file file.now)) }
    ensures of_records { IfOk result (IsOfRecords (F.file file.now) (T.meaning ty.now).homes (map plain records.items)) }
    ensures state { IfOk result (λ journal. journal.state.items
        ≡ (T.meaning ty.now).rows (map (λ part. part.words) words.now.parts)) }
{
    let homes = homes_of(alloc, ty)?;
    let contents = words.contents()?;
    let state = rows_of(alloc, ty, &contents)?;
    Ok(merge(alloc, records, &homes, state)?)
}
