//! Outcomes as JSON.
ghost use Rattle.std.specs.Prelude.{◌≡◌, ◌∷◌, ◌++◌, map, OnOk};
ghost use Rattle.std.specs.List.{join_with_byte};
ghost use Rattle.sto_lang.specs.Views.{file as view};
ghost use Rattle.sto_explore.specs.Texts.{outcome_json, outcomes_json};

use crate::entries::push_schedule;
use crate::outcome::{Outcome, Outcomes};
use crate::words::{push_count, push_without_end};
use sto_lang::{File, Text};
use sto_part::NoMemory;

// Adds an outcome.
fn push_outcome(out: &mut Text, file: &File, outcome: &Outcome) -> Result<(), NoMemory>
    ensures { OnOk result (out.new.items ≡ out.old.items ++ outcome_json (view file.now) outcome.now) }
{
    out.append("{\"report\":")?;
    push_without_end(out, outcome.text.as_str())?;
    out.append(",\"schedule\":\"")?;
    push_schedule(out, file, outcome)?;
    push_count(out, "\",\"schedules\":", outcome.schedules)?;
    out.append("}")
}

// Adds an outcome after a comma.
fn push_next(out: &mut Text, file: &File, outcome: &Outcome) -> Result<(), NoMemory>
    ensures { OnOk result (out.new.items ≡ out.old.items ++ 44 ∷ outcome_json (view file.now) outcome.now) }
{
    out.append(",")?;
    push_outcome(out, file, outcome)
}

// Adds outcomes with a comma between each two.
fn push_each(out: &mut Text, file: &File, outcomes: &[Outcome]) -> Result<(), NoMemory>
    ensures { OnOk result (out.new.items ≡ out.old.items ++ join_with_byte 44 (map (outcome_json (view file.now)) outcomes.now)) }
{
    let [first, others @ ..] = outcomes else {
        return Ok(());
    };
    push_outcome(out, file, first)?;
    for outcome in others {
        push_next(out, file, outcome)?;
    }
    Ok(())
}

/// Adds the outcomes of a file and their sums as one line.
pub(crate) fn push_json(out: &mut Text, file: &File, outcomes: &Outcomes) -> Result<(), NoMemory>
    ensures { OnOk result (out.new.items ≡ out.old.items ++ outcomes_json (view file.now) outcomes.now) }
{
    push_count(out, "{\"changed\":", outcomes.aborted.changed)?;
    push_count(out, ",\"locked\":", outcomes.aborted.locked)?;
    out.append(",\"outcomes\":[")?;
    push_each(out, file, outcomes.each.as_slice())?;
    push_count(out, "],\"schedules\":", outcomes.schedules)?;
    out.append("}\n")
}
