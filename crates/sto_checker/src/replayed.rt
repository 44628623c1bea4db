//! The replay of the journal lines of a report.
ghost use Rattle.std.specs.Prelude.{◌≡◌, ◌↔◌, ◌+◌, ◌<◌, ◌≤◌, ◌^◌, [], length, IfOk, OnOk, IsTrue};
ghost use Rattle.sto_lang.specs.Objects.{shapes_of};
ghost use Rattle.sto_lang.specs.Sound.{IsSound};
ghost use Rattle.sto_lang.specs.Views.{file as view};
ghost use Rattle.sto_journal.specs.Journals.{places};
ghost use Rattle.sto_checker.specs.Lines.{HasContent};
ghost use Rattle.sto_checker.specs.Reading.{place_of};
ghost use Rattle.sto_checker.specs.Right.{IsNext};
ghost use Rattle.sto_checker.specs.Past.{IsPast, IsLast};
ghost use Rattle.sto_checker.specs.Replayed.{IsReplayed, IsTakenOr};

use crate::past::{Past, add_objects, is_line};
use crate::reader::GivenLine;
use crate::transaction::{TransactionPlace, journal_transaction};
use crate::window::Windows;
use std::alloc::Global;
use sto_lang::File;
use sto_model::Shapes;
use sto_part::NoMemory;

/// What the journal lines told, and how many writers an attempt of each transaction may have seen.
#[derive(Drop)]
pub(crate) struct Replayed {
    pub(crate) past: Past,
    pub(crate) windows: Windows,
}

// Whether the transaction is one of the file, and the next one of its thread.
fn has_next(file: &File, past: &Past, at: TransactionPlace) -> bool
    requires past { IsPast (view file.now) past.now }
    requires thread { at.thread < length file.now.threads.items }
    ensures { IsTrue result ↔ IsNext (view file.now) (places past.now.run.lines.items) (place_of at) }
{
    at.position <= file.threads.get(at.thread).scripts.len() && past.is_next(file, at)
}

// Runs the next transaction of a thread.
fn run_next(
    alloc: Global,
    file: &File,
    shapes: &Shapes,
    past: &mut Past,
    at: TransactionPlace,
) -> Result<(), NoMemory>
    requires sound { IsSound (view file.now) }
    requires shapes { shapes.now.items ≡ shapes_of (view file.now).declarations }
    requires past { IsPast (view file.now) past.old }
    requires next { IsNext (view file.now) (places past.old.run.lines.items) (place_of at) }
    requires room { length past.old.run.lines.items + 1 < 2 ^ 32 }
    ensures past { OnOk result (IsPast (view file.now) past.new) }
    ensures last { OnOk result (IsLast (view file.now) past.old past.new (place_of at)) }
{
    past.run
        .run_one(alloc, file, shapes, at.thread, at.position)?;
    let line = past.run.lines.get(past.run.lines.len() - 1);
    let script = file.threads.get(at.thread).scripts.get(at.position - 1);
    add_objects(alloc, script, line, &mut past.written)?;
    past.done.set(at.thread, at.position);
    Ok(())
}

impl Replayed {
    /// Nothing was told.
    pub(crate) fn opening(alloc: Global, file: &File, shapes: &Shapes) -> Result<Replayed, NoMemory>
        requires { shapes.now.items ≡ shapes_of (view file.now).declarations }
        ensures replayed { IfOk result (λ replayed. IsReplayed (view file.now) replayed) }
        ensures none { IfOk result (λ replayed. replayed.past.run.lines.items ≡ []) }
    {
        Ok(Replayed {
            past: Past::opening(alloc, file, shapes)?,
            windows: Windows::new(alloc, file.threads.len())?,
        })
    }

    /// Takes one more line: whether it is the journal line of the next transaction of a thread.
    pub(crate) fn take_line(
        &mut self,
        alloc: Global,
        file: &File,
        shapes: &Shapes,
        line: GivenLine<'_>,
    ) -> Result<bool, NoMemory>
        requires sound { IsSound (view file.now) }
        requires shapes { shapes.now.items ≡ shapes_of (view file.now).declarations }
        requires replayed { IsReplayed (view file.now) self.old }
        requires room { length self.old.past.run.lines.items + 1 < 2 ^ 32 }
        requires content { HasContent line.text.now line.content.now }
        ensures { IfOk result (λ yes. IsTakenOr (view file.now) self.old self.new line.entry.text.now yes) }
    {
        let threads = file.threads.as_slice();
        let Some(at) = journal_transaction(threads, line.content) else {
            return Ok(false);
        };
        if !has_next(file, &self.past, at) {
            return Ok(false);
        }
        run_next(alloc, file, shapes, &mut self.past, at)?;
        let lines = &self.past.run.lines;
        let told = lines.get(lines.len() - 1);
        self.windows.add(told)?;
        is_line(alloc, threads, told, line.text)
    }
}
