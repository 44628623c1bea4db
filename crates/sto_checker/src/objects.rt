//! The last lines of a report: one for each declared object.
ghost use Rattle.std.specs.Prelude.{◌≡◌, ◌↔◌, ◌<◌, ℕ, length, IfOk, IsTrue};
ghost use Rattle.sto_lang.specs.Sound.{IsSound};
ghost use Rattle.sto_lang.specs.Views.{file as view, declaration};
ghost use Rattle.sto_report_spec.specs.Report.{object_text};
ghost use Rattle.sto_checker.specs.declared.found.Found.TheVariants.{Lawful};
ghost use Rattle.sto_checker.specs.Lines.{lines_of};
ghost use Rattle.sto_checker.specs.Answer.{IsAnswer};
ghost use Rattle.sto_checker.specs.Reached.{AreObjectsRead, IsWrongOr};

use crate::past::Past;
use crate::reader::Reader;
use std::alloc::{AllocError, Global};
use sto_journal::push_object;
use sto_lang::{Decl, File};
use sto_model::State;
use sto_part::NoMemory;

// Whether bytes are the line of an object in a state.
fn is_object(alloc: Global, decl: &Decl, state: &State, bytes: &[u8]) -> Result<bool, NoMemory>
    requires { decl.now.number < length state.now.items }
    ensures { IfOk result (λ yes. IsTrue yes ↔ (bytes.now ≡ object_text state.now.items (declaration decl.now))) }
{
    let mut text = String::new(alloc);
    match push_object(&mut text, decl, state) {
        Ok(()) => Ok(text.as_bytes() == bytes),
        Err(AllocError) => Err(NoMemory),
    }
}

/// Reads the lines of the objects to the end of the report; the number of the first that is not right, or that is missing.
pub(crate) fn read_objects(
    alloc: Global,
    file: &File,
    past: &Past,
    reader: &mut Reader<'_>,
) -> Result<Option<u32>, NoMemory>
    requires sound { IsSound (view file.now) }
    requires read { (tries : ℕ) × AreObjectsRead (view file.now) tries (lines_of reader.old.bytes.now) past.now reader.old.read 0 }
    ensures { IfOk result (λ wrong. (tries : ℕ) → AreObjectsRead (view file.now) tries (lines_of reader.old.bytes.now) past.now
        reader.old.read 0 → IsWrongOr (view file.now) tries (lines_of reader.old.bytes.now)
        (IsAnswer (view file.now) tries (lines_of reader.old.bytes.now) Lawful) wrong) }
{
    for decl in file.decls.as_slice() {
        let number = reader.number();
        let Some(line) = reader.next_line() else {
            return Ok(Some(number));
        };
        if !is_object(alloc, decl, &past.run.state, line.text)? {
            return Ok(Some(number));
        }
    }
    let number = reader.number();
    match reader.next_line() {
        Some(_) => Ok(Some(number)),
        None => Ok(None),
    }
}
