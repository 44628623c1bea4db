//! The text of `schedules`: every outcome of runs of a script by schedules within a bound.
ghost use Rattle.std.specs.Prelude.{◌≡◌, ◌≤◌, ◌⊎◌, true, None, IfOk, IfErr};
ghost use Rattle.sto_args.specs.declared.command.Command.TheVariants as commands;
ghost use Rattle.sto_console.specs.declared.refusal.InputFault.TheVariants.{LongRun};
ghost use Rattle.sto_lang.specs.Sound.{IsSound, IsFromTo};
ghost use Rattle.sto_lang.specs.Views.{file as view};
ghost use Rattle.sto_run.specs.Forms.{form_for};
ghost use Rattle.sto_run_schedules.specs.Leading.{HasSomeLongRun};
ghost use Rattle.sto_run_schedules.specs.Explored.{AreOutcomesOf, AreReports, HasTooMany};
ghost use Rattle.sto_cli.specs.Traces.{IsRunFault, IsRefusalFor};
ghost use Rattle.sto_cli.specs.Explorations.{most_schedules, IsCountAt, AreCounts, HasManySchedules, IsExploringFault};
ghost use Rattle.sto_cli.specs.Outputs.{IsOutput};

use crate::traced::traceable_in;
use std::alloc::Global;
use sto_console::{InputFault, Refusal, ScheduleCounts};
use sto_explore::outcomes_text;
use sto_lang::{File, Text};
use sto_run_schedules::{ExploreError, Meter, Outcomes, explore_file};

// How many schedules a script may have of which every outcome is told.
const MOST_SCHEDULES: u32 = 1_000_000;

// Whether it is known that too many schedules make at most so many switches: they do with no more switches, for which the first number
// stands, or with one switch less, of which there is no count.
fn are_many(many_at: u32, switches: u32, one_less: Option<u64>) -> bool
    ensures { result ≡ true → (many_at ≤ switches) ⊎ (one_less ≡ None) }
{
    many_at <= switches || one_less.is_none()
}

// How many schedules a file has with at most so many switches, where they are not too many. Where it is known that they are, none is tried.
fn count_at<W: Meter>(
    alloc: Global,
    file: &File,
    switches: u32,
    tries: u32,
    json: bool,
    are_many: bool,
    meter: &W,
) -> Result<Option<u64>, Refusal>
    requires sound { IsSound (view file.now) }
    requires tries { IsFromTo 1 64 tries }
    requires many { are_many ≡ true → HasTooMany (form_for json) (view file.now) tries switches most_schedules }
    ensures count { IfOk result (IsCountAt (form_for json) (view file.now) tries switches) }
    ensures fault { IfErr result (λ e. IsRefusalFor (λ fault. (fault ≡ LongRun) × HasSomeLongRun tries (view file.now)) e) }
{
    if are_many {
        return Ok(None);
    }
    match explore_file(alloc, file, tries, switches, MOST_SCHEDULES, json, meter) {
        Ok(outcomes) => Ok(Some(outcomes.schedules)),
        Err(ExploreError::TooMany) => Ok(None),
        Err(ExploreError::TooLong) => Err(Refusal::Input(InputFault::LongRun)),
        Err(ExploreError::NoMemory) => Err(Refusal::NoMemory),
    }
}

// The numbers of schedules with at most no, one and two switches of a file that has too many with at most so many.
fn counts_of<W: Meter>(
    alloc: Global,
    file: &File,
    switches: u32,
    tries: u32,
    json: bool,
    meter: &W,
) -> Result<ScheduleCounts, Refusal>
    requires sound { IsSound (view file.now) }
    requires tries { IsFromTo 1 64 tries }
    requires many { HasTooMany (form_for json) (view file.now) tries switches most_schedules }
    ensures counts { IfOk result (AreCounts (form_for json) (view file.now) tries) }
    ensures fault { IfErr result (λ e. IsRefusalFor (λ fault. (fault ≡ LongRun) × HasSomeLongRun tries (view file.now)) e) }
{
    let none = count_at(alloc, file, 0, tries, json, switches == 0, meter)?;
    let many_with_one = are_many(switches, 1, none);
    let one = count_at(alloc, file, 1, tries, json, many_with_one, meter)?;
    let many_with_two = are_many(switches, 2, one);
    let two = count_at(alloc, file, 2, tries, json, many_with_two, meter)?;
    Ok(ScheduleCounts { none, one, two })
}

// Why a file is not explored that has too many schedules.
fn many_schedules<W: Meter>(
    alloc: Global,
    file: &File,
    switches: u32,
    tries: u32,
    json: bool,
    meter: &W,
) -> Refusal
    requires sound { IsSound (view file.now) }
    requires tries { IsFromTo 1 64 tries }
    requires many { HasTooMany (form_for json) (view file.now) tries switches most_schedules }
    ensures { IsRefusalFor (IsExploringFault switches tries json (view file.now)) result }
{
    match counts_of(alloc, file, switches, tries, json, meter) {
        Ok(counts) => Refusal::Input(InputFault::ManySchedules(counts)),
        Err(refusal) => refusal,
    }
}

// The outcomes of a file by each schedule with at most so many switches.
fn outcomes_of<W: Meter>(
    alloc: Global,
    file: &File,
    switches: u32,
    tries: u32,
    json: bool,
    meter: &W,
) -> Result<Outcomes, Refusal>
    requires sound { IsSound (view file.now) }
    requires tries { IsFromTo 1 64 tries }
    ensures outcomes { IfOk result (AreOutcomesOf (form_for json) (view file.now) tries switches) }
    ensures few { IfOk result (λ outcomes. outcomes.schedules ≤ most_schedules) }
    ensures reports { IfOk result (AreReports (form_for json) (view file.now) tries) }
    ensures fault { IfErr result (λ e. IsRefusalFor (IsExploringFault switches tries json (view file.now)) e) }
{
    match explore_file(alloc, file, tries, switches, MOST_SCHEDULES, json, meter) {
        Ok(outcomes) => Ok(outcomes),
        Err(ExploreError::TooMany) => Err(many_schedules(
            alloc, file, switches, tries, json, meter,
        )),
        Err(ExploreError::TooLong) => Err(Refusal::Input(InputFault::LongRun)),
        Err(ExploreError::NoMemory) => Err(Refusal::NoMemory),
    }
}

/// What `schedules` prints for these bytes. The meter is told of each run.
pub(crate) fn schedules_text<W: Meter>(
    alloc: Global,
    bytes: &[u8],
    switches: u32,
    tries: u32,
    json: bool,
    meter: &W,
) -> Result<Text, Refusal>
    requires { IsFromTo 1 64 tries }
    ensures text { IfOk result (λ text. IsOutput (commands.Schedules switches tries json) bytes.now text.items) }
    ensures fault { IfErr result (λ e. IsRefusalFor (IsRunFault (HasSomeLongRun tries) (HasManySchedules switches tries json) None bytes.now) e) }
{
    let file = traceable_in(alloc, bytes, &None)?;
    let outcomes = outcomes_of(alloc, &file, switches, tries, json, meter)?;
    let text = outcomes_text(alloc, &file, &outcomes, json)?;
    Ok(text)
}
