//! Schedules of legs.
ghost use Rattle.std.specs.Prelude.{◌≡◌, ◌++◌, ◌<◌, map, IfOk, OnOk, replicate};
ghost use Rattle.std.specs.List.{flat_map};
ghost use Rattle.sto_run_steps.specs.Turning.{entry_turns};
ghost use Rattle.sto_explore.specs.Legs.{schedule_of};
ghost use Rattle.sto_run_schedules.specs.Parted.{turns_to_ends};

use std::alloc::Global;
use sto_explore::Leg;
use sto_lang::Turns;
use sto_part::NoMemory;

// The schedule by which legs are made, with room for so many more entries. `NoMemory` comes also where a leg has 2^32 turns or more.
fn entries_of(alloc: Global, legs: &[Leg], more: usize) -> Result<Vec<Turns>, NoMemory>
    ensures turns { IfOk result (λ entries. flat_map entry_turns entries.items ≡ schedule_of legs.now) }
    ensures threads { IfOk result (λ entries. map (λ e. e.thread) entries.items ≡ map (λ leg. leg.thread) legs.now) }
{
    let mut entries = match Vec::with_capacity(alloc, legs.len().saturating_add(more)) {
        Ok(entries) => entries,
        Err(_) => return Err(NoMemory),
    };
    for leg in legs {
        let Ok(steps) = u32::try_from(leg.turns) else {
            return Err(NoMemory);
        };
        let entry = Turns {
            thread: leg.thread,
            steps,
        };
        if entries.push(entry).is_err() {
            return Err(NoMemory);
        }
    }
    Ok(entries)
}

/// The schedule of legs with which a run begins, and then of so many turns of each thread of an order.
pub fn entries_to_ends(
    alloc: Global,
    decided: &[Leg],
    order: &[u32],
    most: u32,
) -> Result<Vec<Turns>, NoMemory>
    ensures turns { IfOk result (λ entries. flat_map entry_turns entries.items ≡ turns_to_ends decided.now most order.now) }
    ensures threads { IfOk result (λ entries. map (λ e. e.thread) entries.items ≡ map (λ leg. leg.thread) decided.now ++ order.now) }
{
    let mut entries = entries_of(alloc, decided, order.len())?;
    for thread in order {
        let entry = Turns {
            thread: *thread,
            steps: most,
        };
        if entries.push(entry).is_err() {
            return Err(NoMemory);
        }
    }
    Ok(entries)
}
