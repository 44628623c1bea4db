//! The names of parts, and the lines of objects and transactions.
ghost use Rattle.std.specs.Prelude.{◌≡◌, ◌<◌, true, length, map, IfOk};
ghost use Rattle.sto_lang.specs.Objects.{HaveNames};
ghost use Rattle.std.specs.Str.{IsAscii};
ghost use Rattle.sto_lang.specs.Views.{declaration, names_of};
ghost use Rattle.sto_syntax.specs.Words.{is_name};
ghost use Rattle.sto_report_spec.specs.Named.{AreNames};
ghost use Rattle.sto_report_spec.specs.Report.{line_text, object_text};
ghost use Rattle.sto_journal.specs.Journals.{home_pair, entry};
ghost use Rattle.sto_draw.specs.Scenes.{name_of_part, without_end};

use std::alloc::{AllocError, Global};
use sto_journal::{Line, push_line, push_object, push_part};
use sto_lang::{Decl, Text, Thread};
use sto_model::State;
use sto_part::NoMemory;
use sto_type::Home;

/// The name of a part, as abort lines tell it.
pub(crate) fn part_name(alloc: Global, decls: &[Decl], home: Home) -> Result<Text, NoMemory>
    requires { HaveNames (map declaration decls.now) }
    ensures { IfOk result (λ text. text.items ≡ name_of_part (map declaration decls.now) (home_pair home)) }
{
    let mut name = String::new(alloc);
    match push_part(&mut name, decls, home) {
        Ok(()) => Text::of_string(name),
        Err(AllocError) => Err(NoMemory),
    }
}

/// A line of a report without its line feed.
fn without_end(alloc: Global, line: &str) -> Result<Text, NoMemory>
    requires { IsAscii line.now }
    ensures { IfOk result (λ text. text.items ≡ without_end line.now) }
{
    let mut text = Text::new(alloc);
    text.append(&line[..line.len().saturating_sub(1)])?;
    Ok(text)
}

/// The line of an object in a report.
pub(crate) fn object_line(alloc: Global, decl: &Decl, state: &State) -> Result<Text, NoMemory>
    requires name { is_name decl.now.name.items ≡ true }
    requires rows { decl.now.number < length state.now.items }
    ensures { IfOk result (λ text. text.items ≡ without_end (object_text state.now.items (declaration decl.now))) }
{
    let mut line = String::new(alloc);
    match push_object(&mut line, decl, state) {
        Ok(()) => without_end(alloc, line.as_str()),
        Err(AllocError) => Err(NoMemory),
    }
}

/// The line of a transaction in a report.
pub(crate) fn transaction_line(
    alloc: Global,
    threads: &[Thread],
    line: &Line,
) -> Result<Text, NoMemory>
    requires names { AreNames (names_of threads.now) }
    requires thread { line.now.thread < length threads.now }
    ensures { IfOk result (λ text. text.items ≡ without_end (line_text (names_of threads.now) (entry line.now))) }
{
    let mut text = String::new(alloc);
    match push_line(&mut text, threads, line) {
        Ok(()) => without_end(alloc, text.as_str()),
        Err(AllocError) => Err(NoMemory),
    }
}
