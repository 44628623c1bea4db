//! Whole reports.
ghost use Rattle.std.specs.Prelude.{◌≡◌, ◌+◌, ◌<◌, ◌≤◌, ◌^◌, length, IfOk};
ghost use Rattle.sto_lang.specs.Objects.{shapes_of};
ghost use Rattle.sto_lang.specs.Sound.{IsSound};
ghost use Rattle.sto_lang.specs.Views.{file as view};
ghost use Rattle.sto_report_spec.specs.Lawful.{IsLawful};
ghost use Rattle.sto_checker.specs.declared.found.Found.TheVariants.{Lawful};
ghost use Rattle.sto_checker.specs.Lines.{lines_of};
ghost use Rattle.sto_checker.specs.Answer.{IsAnswer, IsFound};
ghost use Rattle.sto_checker.specs.Reached.{AreObjectsRead, IsWrongOr};
ghost use Rattle.sto_checker.specs.Exact.{IsRightReport, UpdatesAlone, touching_all, UpdatesWritten};
ghost use Rattle.sto_checker.specs.Replayed.{IsJournalTaken};

use crate::aborts::{Gathered, gather};
use crate::found::Found;
use crate::journal::read_journal;
use crate::objects::read_objects;
use crate::reader::Reader;
use crate::replayed::Replayed;
use crate::seen::first_unheard;
use std::alloc::Global;
use sto_lang::File;
use sto_model::Shapes;
use sto_part::NoMemory;

// The number of the line with which the abort lines go wrong, where they do.
fn read_aborts(
    alloc: Global,
    file: &File,
    shapes: &Shapes,
    tries: u32,
    reader: &mut Reader<'_>,
    replayed: &Replayed,
) -> Result<Option<u32>, NoMemory>
    requires sound { IsSound (view file.now) }
    requires tries { 1 ≤ tries }
    requires shapes { shapes.now.items ≡ shapes_of (view file.now).declarations }
    requires taken { IsJournalTaken (view file.now) tries (lines_of reader.old.bytes.now) replayed.now reader.old.read }
    ensures bytes { reader.new.bytes.now ≡ reader.old.bytes.now }
    ensures read { IfOk result (λ wrong. IsWrongOr (view file.now) tries (lines_of reader.old.bytes.now)
        (AreObjectsRead (view file.now) tries (lines_of reader.old.bytes.now) replayed.now.past reader.new.read 0) wrong) }
{
    let before = reader.number();
    let Gathered { aborts, wrong } = gather(alloc, file, tries, reader, replayed)?;
    let run = &replayed.past.run;
    match first_unheard(
        alloc,
        file,
        shapes,
        run.lines.as_slice(),
        run.writers,
        aborts.as_slice(),
    )? {
        Some(place) => Ok(Some(before + place)),
        None => Ok(wrong),
    }
}

// The number of the line with which a report goes wrong, where it does.
fn wrong_line(
    alloc: Global,
    file: &File,
    shapes: &Shapes,
    tries: u32,
    reader: &mut Reader<'_>,
) -> Result<Option<u32>, NoMemory>
    requires sound { IsSound (view file.now) }
    requires tries { 1 ≤ tries }
    requires shapes { shapes.now.items ≡ shapes_of (view file.now).declarations }
    requires unread { reader.old.read ≡ 0 }
    ensures { IfOk result (λ wrong. IsWrongOr (view file.now) tries (lines_of reader.old.bytes.now)
        (IsAnswer (view file.now) tries (lines_of reader.old.bytes.now) Lawful) wrong) }
{
    let mut replayed = Replayed::opening(alloc, file, shapes)?;
    if let Some(line) = read_journal(alloc, file, shapes, reader, &mut replayed)? {
        return Ok(Some(line));
    }
    if let Some(line) = read_aborts(alloc, file, shapes, tries, reader, &replayed)? {
        return Ok(Some(line));
    }
    read_objects(alloc, file, &replayed.past, reader)
}

/// Whether the bytes are the text of a report that is lawful for a file and so many tries, and else the number of the line with
/// which they go wrong: the first that is not right after those before it, or the one behind the last where one is missing. A
/// last line without its line feed is not right.
pub fn check_report(alloc: Global, file: &File, tries: u32, bytes: &[u8]) -> Result<Found, NoMemory>
    requires sound { IsSound (view file.now) }
    requires tries { 1 ≤ tries }
    requires few { length bytes.now + 1 < 2 ^ 32 }
    ensures found { IfOk result (λ found. IsFound (view file.now) tries bytes.now found) }
    ensures only { IfOk result (λ found. (other : Found) → IsFound (view file.now) tries bytes.now other → other ≡ found) }
    // What is lawful by any types is so by those that say the same of updates and let every call touch every part.
    ensures complete { IfOk result (λ found. (u : UpdatesAlone) → UpdatesWritten (touching_all u) (view file.now)
        → IsLawful (touching_all u) (view file.now) tries bytes.now → found ≡ Found.Lawful) }
    ensures right { IfOk result (λ found. found ≡ Found.Lawful → IsRightReport (view file.now) tries bytes.now) }
{
    let shapes = sto_lang::shapes(alloc, file)?;
    let mut reader = Reader::new(bytes);
    match wrong_line(alloc, file, &shapes, tries, &mut reader)? {
        None => Ok(Found::Lawful),
        Some(line) => Ok(Found::Not { line }),
    }
}
