//! The states that aborted attempts saw, along a second replay of the order.
ghost use Rattle.std.specs.Prelude.{◌≡◌, ℕ, ◌+◌, ◌<◌, ◌≤◌, ◌^◌, min, length, map, IfOk, MatchOption, Some, slice_get};
ghost use Rattle.sto_lang.specs.Objects.{shapes_of};
ghost use Rattle.sto_lang.specs.Sound.{IsSound};
ghost use Rattle.sto_lang.specs.Views.{file as view};
ghost use Rattle.sto_report_spec.specs.Replay.{opening_state};
ghost use Rattle.sto_journal.specs.Journals.{places};
ghost use Rattle.sto_checker.specs.Runs.{writers_from};
ghost use Rattle.sto_checker.specs.Shown.{AreInside};
ghost use Rattle.sto_checker.specs.declared.abort.GivenAbort.{GivenAbort};
ghost use Rattle.sto_checker.specs.Given.{IsPlaced};
ghost use Rattle.sto_checker.specs.Seen.{Stands, AreBySeen, IsFirstOf, IsFirstUnheard};

use crate::abort::GivenAbort;
use crate::heard::is_heard;
use crate::progress::Progress;
use std::alloc::Global;
use sto_journal::Line;
use sto_lang::File;
use sto_model::{Shapes, State};
use sto_part::{List, NoMemory};

// The places of abort lines, by how many writers they saw.
fn by_seen(
    alloc: Global,
    aborts: &[GivenAbort<'_>],
    writers: u32,
) -> Result<List<List<u32>>, NoMemory>
    requires few { length aborts.now < 2 ^ 32 }
    requires writers { writers + 1 < 2 ^ 32 }
    requires seen { (place : ℕ) (given : GivenAbort) → slice_get aborts.now place ≡ Some given → given.told.seen ≤ writers }
    ensures { IfOk result (λ made. AreBySeen aborts.now (length aborts.now) writers (map (λ l. l.items) made.items)) }
{
    let mut made = List::new(alloc);
    for _ in 0..writers + 1 {
        let none = List::new(alloc);
        made.push(none)?;
    }
    for (place, given) in aborts.iter().enumerate() {
        made.get_mut(given.told.seen).push(place as u32)?;
    }
    Ok(made)
}

// The first of two places, where there is one.
fn first_of(one: Option<u32>, place: u32) -> u32
    ensures { MatchOption one (result ≡ place) (λ other. result ≡ min other place) }
{
    match one {
        Some(other) => other.min(place),
        None => place,
    }
}

// The first place of an abort line that is not right, among an earlier one and those that saw a state.
fn first_wrong(
    alloc: Global,
    file: &File,
    shapes: &Shapes,
    state: &mut State,
    aborts: &[GivenAbort<'_>],
    places: &[u32],
    earlier: Option<u32>,
) -> Result<Option<u32>, NoMemory>
    requires sound { IsSound (view file.now) }
    requires shapes { shapes.now.items ≡ shapes_of (view file.now).declarations }
    requires objects { length state.old.items ≡ length shapes.now.items }
    requires inside { (place : ℕ) → Stands places.now place → place < length aborts.now }
    requires placed { (place : ℕ) (given : GivenAbort) → slice_get aborts.now place ≡ Some given → IsPlaced (view file.now) given }
    ensures first { IfOk result (λ wrong. IsFirstOf (view file.now) state.old.items aborts.now places.now earlier wrong) }
    ensures state { state.new ≡ state.old }
{
    let mut wrong = earlier;
    for place in places {
        if !is_heard(alloc, file, shapes, state, &aborts[*place as usize])? {
            wrong = Some(first_of(wrong, *place));
        }
    }
    Ok(wrong)
}

/// The place of the first abort line whose replies are not those that its transaction hears from the state that it saw, along
/// a replay of the order of some journal lines, of which so many are those of writers.
pub(crate) fn first_unheard(
    alloc: Global,
    file: &File,
    shapes: &Shapes,
    lines: &[Line],
    writers: u32,
    aborts: &[GivenAbort<'_>],
) -> Result<Option<u32>, NoMemory>
    requires sound { IsSound (view file.now) }
    requires shapes { shapes.now.items ≡ shapes_of (view file.now).declarations }
    requires few { length aborts.now < 2 ^ 32 }
    requires few_lines { length lines.now + 1 < 2 ^ 32 }
    requires inside { AreInside (view file.now) (places lines.now) }
    requires writers { writers ≡ writers_from (view file.now) 0 (opening_state (view file.now)) (places lines.now) }
    requires seen { (place : ℕ) (given : GivenAbort) → slice_get aborts.now place ≡ Some given → given.told.seen ≤ writers }
    requires placed { (place : ℕ) (given : GivenAbort) → slice_get aborts.now place ≡ Some given → IsPlaced (view file.now) given }
    ensures { IfOk result (λ wrong. IsFirstUnheard (view file.now) (places lines.now) aborts.now (writers + 1) wrong) }
{
    if aborts.is_empty() {
        return Ok(None);
    }
    let seen = by_seen(alloc, aborts, writers)?;
    let mut run = Progress::opening(alloc, shapes)?;
    let places = seen.get(0).as_slice();
    let mut wrong = first_wrong(alloc, file, shapes, &mut run.state, aborts, places, None)?;
    for line in lines {
        let before = run.writers;
        run.run_one(alloc, file, shapes, line.thread, line.position)?;
        if before < run.writers {
            let places = seen.get(run.writers).as_slice();
            wrong = first_wrong(alloc, file, shapes, &mut run.state, aborts, places, wrong)?;
        }
    }
    Ok(wrong)
}
