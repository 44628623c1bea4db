//! The abort lines of a report.
ghost use Rattle.std.specs.Prelude.{◌≡◌, ◌+◌, ◌≤◌, length, IfOk};
ghost use Rattle.sto_lang.specs.Sound.{IsSound};
ghost use Rattle.sto_lang.specs.Views.{file as view};
ghost use Rattle.sto_journal.specs.Journals.{places};
ghost use Rattle.sto_checker.specs.Lines.{lines_of};
ghost use Rattle.sto_checker.specs.Right.{total};
ghost use Rattle.sto_checker.specs.Replayed.{IsJournalTaken};
ghost use Rattle.sto_checker.specs.Gathered.{AreGathered, IsEnded};

use crate::abort::{GivenAbort, given_abort};
use crate::last::{LastAbort, followed_by};
use crate::reader::Reader;
use crate::replayed::Replayed;
use std::alloc::Global;
use sto_lang::File;
use sto_part::{List, NoMemory};

/// The abort lines up to the line `state`, or up to a line that goes wrong whatever the replies of those before it are.
#[derive(Drop)]
pub(crate) struct Gathered<'a> {
    pub(crate) aborts: List<GivenAbort<'a>>,
    pub(crate) wrong: Option<u32>,
}

/// Reads the lines behind the journal up to the line `state`.
pub(crate) fn gather<'a>(
    alloc: Global,
    file: &File,
    tries: u32,
    reader: &mut Reader<'a>,
    replayed: &Replayed,
) -> Result<Gathered<'a>, NoMemory>
    requires sound { IsSound (view file.now) }
    requires tries { 1 ≤ tries }
    requires taken { IsJournalTaken (view file.now) tries (lines_of reader.old.bytes.now) replayed.now reader.old.read }
    ensures bytes { reader.new.bytes.now ≡ reader.old.bytes.now }
    ensures gathered { IfOk result (λ g. AreGathered (view file.now) tries (lines_of reader.old.bytes.now)
        (places replayed.now.past.run.lines.items) g.aborts.items (total (view file.now) + length g.aborts.items)) }
    ensures ended { IfOk result (λ g. IsEnded (view file.now) tries (lines_of reader.old.bytes.now) replayed.now.past
        (total (view file.now) + length g.aborts.items) reader.new.read g.wrong) }
{
    let mut aborts = List::new(alloc);
    let mut last: Option<LastAbort> = None;
    loop {
        let number = reader.number();
        let wrong = Some(number);
        let Some(line) = reader.next_line() else {
            return Ok(Gathered { aborts, wrong });
        };
        if line.text == b"state\n".as_slice() {
            return Ok(Gathered {
                aborts,
                wrong: None,
            });
        }
        let Some(given) = given_abort(file, replayed, line) else {
            return Ok(Gathered { aborts, wrong });
        };
        let known = given.told.known_at_end();
        let Some(more) = followed_by(last, given.told.place, given.told.seen, known, tries) else {
            return Ok(Gathered { aborts, wrong });
        };
        last = Some(more);
        aborts.push(given)?;
    }
}
