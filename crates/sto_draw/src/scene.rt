//! The scene of a run.
ghost use Rattle.std.specs.Prelude.{◌≡◌, ◌<◌, ◌++◌, ◌^◌, length, map, IfOk};
ghost use Rattle.sto_lang.specs.Objects.{HaveNames};
ghost use Rattle.sto_lang.specs.Views.{declaration, names_of};
ghost use Rattle.sto_report_spec.specs.Named.{AreNames};
ghost use Rattle.sto_report_spec.specs.Report.{object_text};
ghost use Rattle.sto_journal.specs.Journals.{home_pair, entry, HaveRows, HaveThreads};
ghost use Rattle.sto_picture.specs.Views.{bytes_of, scene_view};
ghost use Rattle.sto_draw.specs.Scenes.{name_of_part, without_end, late_lines, scene_for};

use crate::late::add_late_lines;
use crate::name::{object_line, part_name};
use std::alloc::Global;
use sto_journal::Journal;
use sto_lang::{Decl, File, Text, Thread};
use sto_model::State;
use sto_part::{List, NoMemory};
use sto_picture::Scene;
use sto_trace::{Step, Steps};
use sto_type::Home;

fn thread_names(alloc: Global, threads: &[Thread]) -> Result<List<Text>, NoMemory>
    requires { length threads.now < 2 ^ 32 }
    ensures { IfOk result (λ names. bytes_of names.items ≡ names_of threads.now) }
{
    let mut names = List::new(alloc);
    for thread in threads {
        names.push(thread.name.copied(alloc)?)?;
    }
    Ok(names)
}

fn part_names(alloc: Global, decls: &[Decl], homes: &[Home]) -> Result<List<Text>, NoMemory>
    requires { HaveNames (map declaration decls.now) }
    ensures { IfOk result (λ names. bytes_of names.items ≡ map (name_of_part (map declaration decls.now)) (map home_pair homes.now)) }
{
    if homes.len() >= u32::MAX as usize {
        return Err(NoMemory);
    }
    let mut names = List::new(alloc);
    for home in homes {
        names.push(part_name(alloc, decls, *home)?)?;
    }
    Ok(names)
}

#[tactic(auto, using(crate::proofs::Named::has_name))]
fn object_lines(alloc: Global, decls: &[Decl], state: &State) -> Result<List<Text>, NoMemory>
    requires few { length decls.now < 2 ^ 32 }
    requires names { HaveNames (map declaration decls.now) }
    requires rows { HaveRows state.now.items decls.now }
    ensures { IfOk result (λ lines. bytes_of lines.items
        ≡ map (λ d. without_end (object_text state.now.items d)) (map declaration decls.now)) }
{
    let mut lines = List::new(alloc);
    for decl in decls {
        lines.push(object_line(alloc, decl, state)?)?;
    }
    Ok(lines)
}

/// The lines below the lanes: those of the objects, and of the transactions that were handed back.
fn lines_below(
    alloc: Global,
    file: &File,
    journal: &Journal,
    steps: &[Step],
) -> Result<List<Text>, NoMemory>
    requires names { HaveNames (map declaration file.now.decls.items) }
    requires threads { AreNames (names_of file.now.threads.items) }
    requires lines { HaveThreads (length file.now.threads.items) journal.now.lines.items }
    requires rows { HaveRows journal.now.state.items file.now.decls.items }
    ensures { IfOk result (λ below. bytes_of below.items
        ≡ map (λ d. without_end (object_text journal.now.state.items d)) (map declaration file.now.decls.items)
        ++ late_lines (names_of file.now.threads.items) steps.now (map entry journal.now.lines.items)) }
{
    let mut below = object_lines(alloc, file.decls.as_slice(), &journal.state)?;
    let threads = file.threads.as_slice();
    add_late_lines(&mut below, alloc, threads, steps, journal.lines.as_slice())?;
    Ok(below)
}

/// What a picture shows of a run of a file with this journal, whose parts have these homes: the names of its threads, the parts as abort
/// lines name them, the events, what each object holds at the end, and what was handed back. `NoMemory` comes also where there are 2^32
/// parts or lines.
pub fn scene_of(
    alloc: Global,
    file: &File,
    homes: &[Home],
    steps: Steps,
    journal: &Journal,
) -> Result<Scene, NoMemory>
    requires names { HaveNames (map declaration file.now.decls.items) }
    requires threads { AreNames (names_of file.now.threads.items) }
    requires lines { HaveThreads (length file.now.threads.items) journal.now.lines.items }
    requires rows { HaveRows journal.now.state.items file.now.decls.items }
    ensures { IfOk result (λ s. scene_view s ≡ scene_for (names_of file.now.threads.items) (map declaration file.now.decls.items)
        (map home_pair homes.now) steps.items (map entry journal.now.lines.items) journal.now.state.items) }
{
    Ok(Scene {
        threads: thread_names(alloc, file.threads.as_slice())?,
        parts: part_names(alloc, file.decls.as_slice(), homes)?,
        values: lines_below(alloc, file, journal, steps.as_slice())?,
        steps,
    })
}
