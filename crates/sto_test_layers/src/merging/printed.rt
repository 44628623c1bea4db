//! From records to the text of a report.
ghost use Rattle.std.specs.Prelude.{◌≡◌, ◌↔◌, ◌==◌, IsTrue, IfSome, is_some, map};
ghost use Rattle.std.specs.List.{list_any};
ghost use Rattle.sto_lang.specs.declared.file.Decl.{Decl};
ghost use Rattle.sto_lang.specs.Objects.{with_number};
ghost use Rattle.sto_lang.specs.Sound.{IsSound};
ghost use Rattle.sto_lang.specs.Views.{declaration, file as view};
ghost use Rattle.sto_journal.specs.Journals.{IsAbortOf, AreAbortsOf, HaveRows, HaveThreads};

use crate::merging::merged::journal_of;
use std::alloc::Global;
use sto_journal::{AbortLine, Cause, Line, report};
use sto_lang::{Decl, File, Text, read};
use sto_model::{Rows, State};
use sto_part::NoMemory;
use sto_transaction::Record;

// The file of a script; none where it is faulty.
fn file_of(alloc: Global, script: &str) -> Option<File>
    ensures { IfSome result (λ file. IsSound (view file)) }
{
    match read(alloc, script.as_bytes()) {
        Ok(file) => Some(file),
        Err(_) => None,
    }
}

fn are_of_threads(lines: &[Line], threads: u32) -> bool
    ensures { IsTrue result ↔ HaveThreads threads lines.now }
{
    lines.iter().all(|line| line.thread < threads)
}

fn has_number(decl: &Decl, object: u32) -> bool
    ensures { result ≡ (decl.now.number == object) }
{
    decl.number == object
}

fn any_has_number(decls: &[Decl], object: u32) -> bool
    ensures { result ≡ list_any (λ (decl : Decl). decl.number == object) decls.now }
{
    decls.iter().any(|decl| has_number(decl, object))
}

fn is_declared(decls: &[Decl], object: u32) -> bool
    ensures { result ≡ is_some (with_number object (map declaration decls.now)) }
{
    any_has_number(decls, object)
}

fn is_of_file(line: &AbortLine, threads: u32, decls: &[Decl]) -> bool
    ensures { IsTrue result ↔ IsAbortOf threads (map declaration decls.now) line.now }
{
    let (Cause::Locked { home } | Cause::Changed { home, .. }) = line.cause;
    line.thread < threads && is_declared(decls, home.object)
}

fn are_of_file(lines: &[AbortLine], threads: u32, decls: &[Decl]) -> bool
    ensures { IsTrue result ↔ AreAbortsOf threads (map declaration decls.now) lines.now }
{
    lines.iter().all(|line| is_of_file(line, threads, decls))
}

fn have_rows(state: &State, decls: &[Decl]) -> bool
    ensures { IsTrue result ↔ HaveRows state.now.items decls.now }
{
    let objects = state.len();
    decls.iter().all(|decl| decl.number < objects)
}

// One row for each object.
fn state_of(alloc: Global, values: &[i64]) -> Result<State, NoMemory> {
    let mut state = State::new(alloc);
    for value in values {
        if state.len() == u32::MAX {
            return Err(NoMemory);
        }
        let mut rows = Rows::new(alloc);
        rows.put(0, *value)?;
        state.push(rows)?;
    }
    Ok(state)
}

/// The report of the journal that merging makes of records, where each object of the script has one part and is left with one
/// value. There is none where the script is faulty, or the records are not of its threads and objects.
pub(crate) fn report_of(
    alloc: Global,
    script: &str,
    records: Vec<Record>,
    left: &[i64],
) -> Result<Option<Text>, NoMemory> {
    let Some(file) = file_of(alloc, script) else {
        return Ok(None);
    };
    let Some(journal) = journal_of(alloc, records, state_of(alloc, left)?)? else {
        return Ok(None);
    };
    let (threads, decls) = (file.threads.len(), file.decls.as_slice());
    let fits = are_of_threads(journal.lines.as_slice(), threads)
        && are_of_file(journal.aborts.as_slice(), threads, decls)
        && have_rows(&journal.state, decls);
    if fits {
        Ok(Some(report(alloc, &file, &journal)?))
    } else {
        Ok(None)
    }
}
