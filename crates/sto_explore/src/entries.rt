//! The schedules that lead to outcomes.
ghost use Rattle.std.specs.Prelude.{◌≡◌, ◌++◌, [], ◌∷◌, IfOk, OnOk};
ghost use Rattle.sto_lang.specs.Views.{file as view};
ghost use Rattle.sto_explore.specs.Texts.{entry_of, entries_of, legs_text, schedule_text};

use crate::leg::Leg;
use crate::outcome::Outcome;
use sto_lang::{File, Text, Turns};
use sto_part::NoMemory;
use sto_write::push_entries;

// A leg as an entry of a schedule. `NoMemory` comes where it has 2^32 turns or more.
fn entry_of(leg: &Leg) -> Result<Turns, NoMemory>
    ensures { IfOk result (λ entry. entry ≡ entry_of leg.now) }
{
    match u32::try_from(leg.turns) {
        Ok(steps) => Ok(Turns {
            thread: leg.thread,
            steps,
        }),
        Err(_) => Err(NoMemory),
    }
}

// Adds the entry of a leg.
fn push_leg(out: &mut Text, file: &File, leg: &Leg) -> Result<(), NoMemory>
    ensures { OnOk result (out.new.items ≡ out.old.items ++ legs_text (view file.now) (leg.now ∷ [])) }
{
    let entry = entry_of(leg)?;
    push_entries(out, file.version, file.threads.as_slice(), &[entry])
}

// Adds the entries of legs.
fn push_legs(out: &mut Text, file: &File, legs: &[Leg]) -> Result<(), NoMemory>
    ensures { OnOk result (out.new.items ≡ out.old.items ++ legs_text (view file.now) legs.now) }
{
    for leg in legs {
        push_leg(out, file, leg)?;
    }
    Ok(())
}

/// Adds the schedule that leads to an outcome, or nothing where that has no entry. `NoMemory` comes also where one of its legs has 2^32 turns or more.
pub(crate) fn push_schedule(out: &mut Text, file: &File, outcome: &Outcome) -> Result<(), NoMemory>
    ensures { OnOk result (out.new.items ≡ out.old.items ++ schedule_text (view file.now) outcome.now) }
{
    if outcome.legs.is_empty() {
        return Ok(());
    }
    out.append("schedule")?;
    push_legs(out, file, outcome.legs.as_slice())
}
