//! The text of a whole file.
ghost use Rattle.std.specs.Prelude.{◌≡◌, ◌++◌, ◌∷◌, true, map, flat_map, OnOk, IfOk};
ghost use Rattle.std.specs.List.{list_all};
ghost use Rattle.std.specs.Option.{option_map};
ghost use Rattle.std.specs.Fmt.{signed_decimal};
ghost use Rattle.sto_lang.specs.Ascii.{is_ascii};
ghost use Rattle.sto_lang.specs.Views.{declaration, script as script_of, names_of, file as file_of};
ghost use Rattle.sto_syntax.specs.Forms.{ThreadLine};
ghost use Rattle.sto_write.specs.Laws.{ReadsAs};
ghost use Rattle.sto_write.specs.Texts.{declare_line, script_lines, version_lines, name_on_line, thread_lines, schedule_lines, word_for, thread_text, entry_for, entry_word, entries_text, line_text, text_of};

use crate::line::push_alone;
use crate::statement::push_statements;
use crate::word::push_number;
use std::alloc::Global;
use sto_lang::{Decl, File, Schedule, Script, Text, Thread, Turns};
use sto_model::Shape;
use sto_part::NoMemory;

/// Adds a number after a space.
fn push_next_number(out: &mut Text, value: i64) -> Result<(), NoMemory>
    ensures { OnOk result (out.new.items ≡ out.old.items ++ 32 ∷ signed_decimal value) }
{
    out.append(" ")?;
    push_number(out, value)
}

/// Adds the word of a kind and a name.
fn push_named(out: &mut Text, kind: &str, name: &Text) -> Result<(), NoMemory>
    requires { list_all is_ascii kind.now ≡ true }
    ensures { OnOk result (out.new.items ≡ out.old.items ++ (kind.now ++ 32 ∷ name.now.items)) }
{
    out.append(kind)?;
    out.append(" ")?;
    out.append(name.as_str())
}

/// Adds a declaration.
fn push_declaration(out: &mut Text, decl: &Decl) -> Result<(), NoMemory>
    ensures { OnOk result (out.new.items ≡ out.old.items ++ line_text (declare_line (declaration decl.now))) }
{
    match &decl.shape {
        Shape::Single(value) => {
            push_named(out, "box", &decl.name)?;
            push_next_number(out, *value)?;
        }
        Shape::Counter(value) => {
            push_named(out, "counter", &decl.name)?;
            push_next_number(out, *value)?;
        }
        Shape::Array { len, value } => {
            push_named(out, "array", &decl.name)?;
            push_next_number(out, i64::from(*len))?;
            push_next_number(out, *value)?;
        }
        Shape::Hash { buckets, places } => {
            push_named(out, "hash", &decl.name)?;
            push_next_number(out, i64::from(*buckets))?;
            push_next_number(out, i64::from(*places))?;
        }
        Shape::Tree { leaves } => {
            push_named(out, "tree", &decl.name)?;
            push_next_number(out, i64::from(*leaves))?;
        }
        Shape::Vector { capacity } => {
            push_named(out, "vector", &decl.name)?;
            push_next_number(out, i64::from(*capacity))?;
        }
    }
    out.append("\n")
}

fn push_declarations(out: &mut Text, decls: &[Decl]) -> Result<(), NoMemory>
    ensures { OnOk result (out.new.items ≡ out.old.items ++ flat_map (λ d. line_text (declare_line (declaration d))) decls.now) }
{
    for decl in decls {
        push_declaration(out, decl)?;
    }
    Ok(())
}

/// Adds a transaction.
fn push_script(out: &mut Text, decls: &[Decl], script: &Script) -> Result<(), NoMemory>
    ensures { OnOk result (out.new.items ≡ out.old.items ++ flat_map line_text
        (script_lines (map declaration decls.now) (script_of script.now))) }
{
    push_alone(out, "begin")?;
    push_statements(out, decls, &script.vars, script.body.as_slice())?;
    push_alone(out, "commit")
}

fn push_scripts(out: &mut Text, decls: &[Decl], scripts: &[Script]) -> Result<(), NoMemory>
    ensures { OnOk result (out.new.items ≡ out.old.items ++ flat_map
        (λ s. flat_map line_text (script_lines (map declaration decls.now) (script_of s))) scripts.now) }
{
    for script in scripts {
        push_script(out, decls, script)?;
    }
    Ok(())
}

/// Adds a thread.
fn push_thread(
    out: &mut Text,
    version: u32,
    decls: &[Decl],
    thread: &Thread,
) -> Result<(), NoMemory>
    ensures { OnOk result (out.new.items ≡ out.old.items ++ flat_map line_text
        (thread_lines version (map declaration decls.now) thread.now.name.items (map script_of thread.now.scripts.items))) }
{
    push_thread_line(out, version, &thread.name)?;
    push_scripts(out, decls, thread.scripts.as_slice())
}

/// Adds the line of a thread; in version 2 it has the thread's name.
fn push_thread_line(out: &mut Text, version: u32, name: &Text) -> Result<(), NoMemory>
    ensures { OnOk result (out.new.items ≡ out.old.items ++ line_text (ThreadLine (name_on_line version name.now.items))) }
{
    if version == 2 {
        push_named(out, "thread", name)?;
        out.append("\n")
    } else {
        push_alone(out, "thread")
    }
}

fn push_threads(
    out: &mut Text,
    version: u32,
    decls: &[Decl],
    threads: &[Thread],
) -> Result<(), NoMemory>
    ensures { OnOk result (out.new.items ≡ out.old.items ++ flat_map
        (λ t. flat_map line_text (thread_lines version (map declaration decls.now) t.name.items (map script_of t.scripts.items)))
        threads.now) }
{
    for thread in threads {
        push_thread(out, version, decls, thread)?;
    }
    Ok(())
}

/// Adds what names a thread in an entry.
fn push_thread_word(
    out: &mut Text,
    version: u32,
    threads: &[Thread],
    number: u32,
) -> Result<(), NoMemory>
    ensures { OnOk result (out.new.items ≡ out.old.items ++ thread_text (word_for version (names_of threads.now) number)) }
{
    if version == 2 {
        match threads.get(number as usize) {
            Some(thread) => out.append(thread.name.as_str()),
            None => Ok(()),
        }
    } else {
        push_number(out, i64::from(number))
    }
}

/// Adds an entry after a space.
fn push_entry(
    out: &mut Text,
    version: u32,
    threads: &[Thread],
    turns: Turns,
) -> Result<(), NoMemory>
    ensures { OnOk result (out.new.items ≡ out.old.items ++ 32 ∷ entry_word (entry_for version (names_of threads.now) turns)) }
{
    out.append(" ")?;
    push_thread_word(out, version, threads, turns.thread)?;
    out.append(":")?;
    push_number(out, i64::from(turns.steps))
}

/// Adds the entries of a schedule for these threads of a file of this version, each after a space.
pub fn push_entries(
    out: &mut Text,
    version: u32,
    threads: &[Thread],
    turns: &[Turns],
) -> Result<(), NoMemory>
    ensures { OnOk result (out.new.items ≡ out.old.items ++ entries_text version (names_of threads.now) turns.now) }
{
    for entry in turns {
        push_entry(out, version, threads, *entry)?;
    }
    Ok(())
}

/// Adds the schedule, where there is one.
fn push_schedule(
    out: &mut Text,
    version: u32,
    threads: &[Thread],
    schedule: &Option<Schedule>,
) -> Result<(), NoMemory>
    ensures { OnOk result (out.new.items ≡ out.old.items ++ flat_map line_text
        (schedule_lines version (names_of threads.now) (option_map (λ s. s.items) schedule.now))) }
{
    match schedule {
        None => Ok(()),
        Some(turns) => {
            out.append("schedule")?;
            push_entries(out, version, threads, turns.as_slice())?;
            out.append("\n")
        }
    }
}

/// Adds the line of the version, which version 1 has not.
fn push_version(out: &mut Text, version: u32) -> Result<(), NoMemory>
    ensures { OnOk result (out.new.items ≡ out.old.items ++ flat_map line_text (version_lines version)) }
{
    if version == 2 {
        out.append("sto 2\n")
    } else {
        Ok(())
    }
}

/// The canonical text of a file: one line for each form, its words separated by one space.
///
/// It asks for a file that `read` can give. The text of such a file reads as the file where it has at most 1,048,576 bytes.
pub fn write(alloc: Global, file: &File) -> Result<Text, NoMemory>
    ensures text { IfOk result (λ text. text.items ≡ text_of (file_of file.now)) }
    ensures reads_as { IfOk result (λ text. ReadsAs (file_of file.now) text.items) }
{
    let mut out = Text::new(alloc);
    push_version(&mut out, file.version)?;
    push_declarations(&mut out, file.decls.as_slice())?;
    push_threads(
        &mut out,
        file.version,
        file.decls.as_slice(),
        file.threads.as_slice(),
    )?;
    push_schedule(
        &mut out,
        file.version,
        file.threads.as_slice(),
        &file.schedule,
    )?;
    Ok(out)
}
