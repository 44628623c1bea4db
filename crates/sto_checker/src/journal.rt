//! The journal lines of a report.
ghost use Rattle.std.specs.Prelude.{◌≡◌, ℕ, [], length, IfOk};
ghost use Rattle.sto_lang.specs.Objects.{shapes_of};
ghost use Rattle.sto_lang.specs.Sound.{IsSound};
ghost use Rattle.sto_lang.specs.Views.{file as view};
ghost use Rattle.sto_checker.specs.Lines.{lines_of};
ghost use Rattle.sto_checker.specs.Right.{total};
ghost use Rattle.sto_checker.specs.Reached.{IsWrongOr};
ghost use Rattle.sto_checker.specs.Replayed.{IsReplayed, IsJournalTaken};

use crate::reader::Reader;
use crate::replayed::Replayed;
use std::alloc::Global;
use sto_lang::File;
use sto_model::Shapes;
use sto_part::NoMemory;

// How many transactions a file has.
fn total(file: &File) -> u32
    requires { IsSound (view file.now) }
    ensures { result ≡ total (view file.now) }
{
    let mut count = 0;
    for thread in file.threads.as_slice() {
        count += thread.scripts.len();
    }
    count
}

/// Reads as many lines as the file has transactions; the number of the first that is no right journal line, or that is missing.
pub(crate) fn read_journal(
    alloc: Global,
    file: &File,
    shapes: &Shapes,
    reader: &mut Reader<'_>,
    replayed: &mut Replayed,
) -> Result<Option<u32>, NoMemory>
    requires sound { IsSound (view file.now) }
    requires shapes { shapes.now.items ≡ shapes_of (view file.now).declarations }
    requires replayed { IsReplayed (view file.now) replayed.old }
    requires none { replayed.old.past.run.lines.items ≡ [] }
    requires unread { reader.old.read ≡ 0 }
    ensures bytes { reader.new.bytes.now ≡ reader.old.bytes.now }
    ensures taken { IfOk result (λ wrong. (tries : ℕ) → IsWrongOr (view file.now) tries (lines_of reader.old.bytes.now)
        (IsJournalTaken (view file.now) tries (lines_of reader.old.bytes.now) replayed.new reader.new.read) wrong) }
{
    for _ in 0..total(file) {
        let number = reader.number();
        let Some(line) = reader.next_line() else {
            return Ok(Some(number));
        };
        if !replayed.take_line(alloc, file, shapes, line)? {
            return Ok(Some(number));
        }
    }
    Ok(None)
}
