//! What the journal lines of a report told.
ghost use Rattle.std.specs.Prelude.{◌≡◌, ◌↔◌, suc, ◌+◌, ◌<◌, ◌≤◌, ◌^◌, [], ◌∷◌, ◌++◌, length, map, IfOk, OnOk, IsTrue, MatchOption, None, Some, slice_get, string_bytes};
ghost use Rattle.sto_lang.specs.Objects.{shapes_of};
ghost use Rattle.sto_lang.specs.Sizes.{calls_of};
ghost use Rattle.sto_lang.specs.Sound.{IsSound};
ghost use Rattle.sto_lang.specs.Views.{file as view, script as script_view, names_of};
ghost use Rattle.sto_script.specs.Meaning.{meaning_of};
ghost use Rattle.sto_report_spec.specs.Orders.{positions_of, transaction_at};
ghost use Rattle.sto_report_spec.specs.Replay.{Entry};
ghost use Rattle.sto_report_spec.specs.Report.{line_text};
ghost use Rattle.sto_report_spec.specs.Named.{order_named};
ghost use Rattle.sto_model.specs.PlainReplies.{plain_reply};
ghost use Rattle.sto_journal.specs.Journals.{entry, places};
ghost use Rattle.sto_checker.specs.Lines.{HasContent};
ghost use Rattle.sto_checker.specs.Reading.{place_of};
ghost use Rattle.sto_checker.specs.Written.{objects_along};
ghost use Rattle.sto_checker.specs.Right.{IsNext, IsJournalLine, entry_after};
ghost use Rattle.sto_checker.specs.Past.{IsPast, IsLast, told_objects};

use crate::progress::Progress;
use crate::reader::GivenLine;
use crate::transaction::{TransactionPlace, journal_transaction};
use crate::walk::objects_written;
use std::alloc::{AllocError, Global};
use sto_journal::{Ending, Line, push_line};
use sto_lang::{File, Script, Thread};
use sto_model::Shapes;
use sto_part::{List, NoMemory};
use sto_script::ScriptBody;

/// The replay of the transactions that the journal lines name, how many of each thread there are, and which objects each
/// writer wrote.
#[derive(Drop)]
pub struct Past {
    pub run: Progress,
    pub done: List<u32>,
    pub written: List<List<u32>>,
}

/// Whether bytes are the text of a journal line.
pub fn is_line(
    alloc: Global,
    threads: &[Thread],
    line: &Line,
    bytes: &[u8],
) -> Result<bool, NoMemory>
    requires { line.now.thread < length threads.now }
    ensures { IfOk result (λ yes. IsTrue yes ↔ (bytes.now ≡ line_text (names_of threads.now) (entry line.now))) }
{
    let mut text = String::new(alloc);
    match push_line(&mut text, threads, line) {
        Ok(()) => Ok(text.as_bytes() == bytes),
        Err(AllocError) => Err(NoMemory),
    }
}

/// The objects that the transaction of a line wrote, by its replies.
fn objects_of(alloc: Global, script: &Script, line: &Line) -> Result<List<u32>, NoMemory>
    requires { calls_of script.now.body ≤ script.now.weight }
    ensures { IfOk result (λ objects. objects.items ≡ objects_along (meaning_of (script_view script.now))
        (map plain_reply line.now.replies.items)) }
{
    let mut body = ScriptBody::new(alloc, script)?;
    objects_written(alloc, &mut body, line.replies.as_slice())
}

/// Adds the objects that the transaction of a line wrote, where it is a writer.
pub fn add_objects(
    alloc: Global,
    script: &Script,
    line: &Line,
    written: &mut List<List<u32>>,
) -> Result<(), NoMemory>
    requires weighed { calls_of script.now.body ≤ script.now.weight }
    requires room { length written.old.items + 1 < 2 ^ 32 }
    ensures { OnOk result (map (λ objects. objects.items) written.new.items ≡ map (λ objects. objects.items) written.old.items
        ++ told_objects line.now.end (objects_along (meaning_of (script_view script.now)) (map plain_reply line.now.replies.items))) }
{
    match line.end {
        Ending::Commit => {
            let objects = objects_of(alloc, script, line)?;
            written.push(objects)?;
        }
        Ending::Read | Ending::Cancel => {}
    }
    Ok(())
}

impl Past {
    /// Nothing was told.
    pub fn opening(alloc: Global, file: &File, shapes: &Shapes) -> Result<Past, NoMemory>
        requires { shapes.now.items ≡ shapes_of (view file.now).declarations }
        ensures past { IfOk result (λ past. IsPast (view file.now) past) }
        ensures none { IfOk result (λ past. past.run.lines.items ≡ []) }
    {
        Ok(Past {
            run: Progress::opening(alloc, shapes)?,
            done: List::filled(alloc, 0, file.threads.len())?,
            written: List::new(alloc),
        })
    }

    /// Whether a transaction of a thread of the file is the next one of it.
    pub fn is_next(&self, file: &File, at: TransactionPlace) -> bool
        requires past { IsPast (view file.now) self.now }
        requires inside { at.thread < length (view file.now).threads }
        ensures { IsTrue result ↔ (at.position ≡ suc (length (positions_of at.thread (places self.now.run.lines.items)))) }
    {
        let done = *self.done.get(at.thread);
        done < at.position && at.position - done == 1
    }
}
