//! Outcomes as text.
ghost use Rattle.std.specs.Prelude.{◌≡◌, ◌++◌, flat_map, OnOk};
ghost use Rattle.std.specs.List.{enumerate_from};
ghost use Rattle.sto_lang.specs.Views.{file as view};
ghost use Rattle.sto_explore.specs.Texts.{outcome_text, schedule_line, sum_line, outcomes_text};

use crate::entries::push_schedule;
use crate::outcome::{Outcome, Outcomes};
use crate::words::{push_count, push_report};
use sto_lang::{File, Text};
use sto_part::NoMemory;

// Adds the line of the schedule that leads to an outcome, where it has an entry.
fn push_schedule_line(out: &mut Text, file: &File, outcome: &Outcome) -> Result<(), NoMemory>
    ensures { OnOk result (out.new.items ≡ out.old.items ++ schedule_line (view file.now) outcome.now) }
{
    if outcome.legs.is_empty() {
        return Ok(());
    }
    push_schedule(out, file, outcome)?;
    out.append("\n")
}

// Adds an outcome by its number.
fn push_outcome(out: &mut Text, file: &File, number: u64, outcome: &Outcome) -> Result<(), NoMemory>
    ensures { OnOk result (out.new.items ≡ out.old.items ++ outcome_text (view file.now) (number, outcome.now)) }
{
    push_count(out, "outcome ", number)?;
    push_count(out, " schedules ", outcome.schedules)?;
    out.append("\n")?;
    push_schedule_line(out, file, outcome)?;
    out.append("report\n")?;
    push_report(out, outcome.text.as_str())
}

// Adds outcomes, numbered from 1.
fn push_each(out: &mut Text, file: &File, outcomes: &[Outcome]) -> Result<(), NoMemory>
    ensures { OnOk result (out.new.items ≡ out.old.items ++ flat_map (outcome_text (view file.now)) (enumerate_from 1 outcomes.now)) }
{
    for (place, outcome) in outcomes.iter().enumerate() {
        push_outcome(out, file, place as u64 + 1, outcome)?;
    }
    Ok(())
}

// Adds the line of the sums of outcomes.
fn push_sum(out: &mut Text, outcomes: &Outcomes) -> Result<(), NoMemory>
    ensures { OnOk result (out.new.items ≡ out.old.items ++ sum_line outcomes.now) }
{
    push_count(out, "sum schedules ", outcomes.schedules)?;
    push_count(out, " outcomes ", outcomes.each.len() as u64)?;
    push_count(out, " locked ", outcomes.aborted.locked)?;
    push_count(out, " changed ", outcomes.aborted.changed)?;
    out.append("\n")
}

/// Adds the outcomes of a file, and the line of their sums.
pub(crate) fn push_text(out: &mut Text, file: &File, outcomes: &Outcomes) -> Result<(), NoMemory>
    ensures { OnOk result (out.new.items ≡ out.old.items ++ outcomes_text (view file.now) outcomes.now) }
{
    push_each(out, file, outcomes.each.as_slice())?;
    push_sum(out, outcomes)
}
