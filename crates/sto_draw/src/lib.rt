//! Pictures of runs of files.
#![tactic(auto)]

ghost use Rattle.std.specs.Prelude.{◌≡◌, ◌≤◌, ℕ, length, map, IfOk};
ghost use Rattle.std.specs.Option.{option_map};
ghost use Rattle.sto_lang.specs.Sound.{IsSound, IsFromTo};
ghost use Rattle.sto_lang.specs.Views.{file as view};
ghost use Rattle.sto_journal.specs.Journals.{home_pair, entry};
ghost use Rattle.sto_picture.specs.Pictures.{picture_of};
ghost use Rattle.sto_draw.specs.Scenes.{scene_for};
ghost use Rattle.sto_run.specs.Meanings.{updating_by};
ghost use Rattle.sto_run.specs.Stores.{means};
ghost use Rattle.sto_run.specs.Lawful.{IsLawfulJournal};
ghost use Rattle.sto_draw.specs.Drawn.{IsDrawing};

mod late;
mod name;
mod scene;

use crate::scene::scene_of;
use std::alloc::Global;
use sto_journal::Journal;
use sto_lang::{File, Text};
use sto_part::NoMemory;
use sto_picture::{MOST_STEPS, picture};
use sto_run::{TracedRun, trace_file};
use sto_trace::Steps;
use sto_type::Home;

/// The picture of a run with this journal.
fn draw_run(
    alloc: Global,
    file: &File,
    journal: &Journal,
    homes: &[Home],
    steps: Steps,
) -> Result<Text, NoMemory>
    requires sound { IsSound (view file.now) }
    requires lawful { (tries : ℕ) × IsLawfulJournal (updating_by means) (view file.now) tries journal.now }
    requires few { length steps.items ≤ 20000 }
    ensures { IfOk result (λ text. text.items ≡ picture_of (scene_for (view file.now).names (view file.now).declarations
        (map home_pair homes.now) steps.items (map entry journal.now.lines.items) journal.now.state.items)) }
{
    let scene = scene_of(alloc, file, homes, steps, journal)?;
    picture(alloc, &scene)
}

/// Runs a file in one thread by its schedule, as `sto_run::trace_file` does, and draws the run. There is no picture where it has more
/// than 20,000 events.
pub fn draw_file(alloc: Global, file: &File, tries: u32) -> Result<Option<Text>, NoMemory>
    requires sound { IsSound (view file.now) }
    requires tries { IsFromTo 1 64 tries }
    ensures { IfOk result (λ answer. IsDrawing tries (view file.now) (option_map (λ text. text.items) answer)) }
{
    let TracedRun {
        journal,
        homes,
        steps,
    } = trace_file(alloc, file, tries)?;
    let Some(steps) = steps else {
        return Ok(None);
    };
    if steps.len() > MOST_STEPS {
        return Ok(None);
    }
    let text = draw_run(alloc, file, &journal, homes.as_slice(), steps)?;
    Ok(Some(text))
}
