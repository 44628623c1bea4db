//! The names of threads and parts.
ghost use Rattle.std.specs.Prelude.{◌≡◌, ◌++◌, OnOk, string_bytes, map, slice_get, unwrap_or};
ghost use Rattle.sto_lang.specs.Objects.{with_number};
ghost use Rattle.sto_lang.specs.Views.{declaration, names_of};
ghost use Rattle.sto_report_spec.specs.Aborts.{name_of};
ghost use Rattle.sto_report_spec.specs.Report.{name_at};
ghost use Rattle.sto_journal.specs.Journals.{home_pair};
ghost use Rattle.sto_trace_text.specs.Texts.{named_part, part_at};
ghost use Rattle.sto_trace_text.specs.Named.{named};

use std::alloc::AllocError;
use sto_lang::{Decl, File, Thread};
use sto_type::Home;
use sto_write::decl_with;

/// The names in a trace: those of the file that was run, and the homes of all parts.
#[derive(Clone, Copy)]
pub struct Names<'f> {
    pub file: &'f File,
    pub homes: &'f [Home],
}

/// The name of the thread with a number; of none, nothing.
pub(crate) fn thread_name(threads: &[Thread], number: u32) -> &str
    ensures { result.now ≡ name_at (names_of threads.now) number }
{
    match threads.get(number as usize) {
        Some(thread) => thread.name.as_str(),
        None => "",
    }
}

// The home of a part; of none, the first part of object 0.
fn home_at(homes: &[Home], part: u32) -> Home
    ensures { home_pair result ≡ unwrap_or (slice_get (map home_pair homes.now) part) (0, 0) }
{
    match homes.get(part as usize) {
        Some(home) => *home,
        None => Home {
            object: 0,
            local: 0,
        },
    }
}

// The name of the object with a number; where none has it, nothing.
fn object_name(decls: &[Decl], number: u32) -> &str
    ensures { result.now ≡ name_of (with_number number (map declaration decls.now)) }
{
    match decl_with(decls, number) {
        Some(decl) => decl.name.as_str(),
        None => "",
    }
}

/// A part, by the name of its object and its number there.
pub(crate) struct NamedPart<'f> {
    pub(crate) object: &'f str,
    pub(crate) part: u32,
}

/// The name of a part.
pub(crate) fn named_part<'f>(names: &Names<'f>, part: u32) -> NamedPart<'f>
    ensures object { result.object.now ≡ (named_part (named names.now) part).object }
    ensures part { result.part ≡ (named_part (named names.now) part).part }
{
    let Home { object, local } = home_at(names.homes, part);
    NamedPart {
        object: object_name(names.file.decls.as_slice(), object),
        part: local,
    }
}

/// Adds a part, by the name of its object and its number there.
pub(crate) fn push_part(out: &mut String, names: &Names<'_>, part: u32) -> Result<(), AllocError>
    ensures { OnOk result (string_bytes out.new ≡ string_bytes out.old ++ part_at (named names.now) part) }
{
    let home = home_at(names.homes, part);
    sto_journal::push_part(out, names.file.decls.as_slice(), home)
}
