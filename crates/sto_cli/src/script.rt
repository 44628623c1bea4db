//! A script with the schedule of words in the place of its own.
ghost use Rattle.std.specs.Prelude.{◌≡◌, Some, Ok, IfOk, IfErr};
ghost use Rattle.sto_lang.specs.Sound.{IsSound};
ghost use Rattle.sto_lang.specs.Views.{file as view};
ghost use Rattle.sto_schedule.specs.Schedules.{with_schedule};
ghost use Rattle.sto_cli.specs.Schedules.{scheduled_by, IsScheduled, IsScheduledFault, IsUnscheduled};
ghost use Rattle.sto_cli.specs.Traces.{IsRefusalFor};

use std::alloc::Global;
use sto_args::GivenText;
use sto_console::{InputFault, Refusal, file_in};
use sto_lang::File;
use sto_schedule::{ScheduleError, with_schedule};

// A file with the schedule that these words are.
fn with_words(alloc: Global, file: File, words: &[u8]) -> Result<File, Refusal>
    requires { IsSound (view file) }
    ensures file { IfOk result (λ f. with_schedule (view file) words.now ≡ Ok (view f)) }
    ensures sound { IfOk result (λ f. IsSound (view f)) }
    ensures fault { IfErr result (λ e. IsRefusalFor (IsUnscheduled (Some words.now) (view file)) e) }
{
    match with_schedule(alloc, file, words) {
        Ok(file) => Ok(file),
        Err(ScheduleError::Fault(kind)) => Err(Refusal::Input(InputFault::Schedule(kind))),
        Err(ScheduleError::NoMemory) => Err(Refusal::NoMemory),
    }
}

// A file with the schedule that words are, where there are words.
fn scheduled(alloc: Global, file: File, schedule: &Option<GivenText>) -> Result<File, Refusal>
    requires { IsSound (view file) }
    ensures file { IfOk result (λ f. scheduled_by schedule.now (view file) ≡ Ok (view f)) }
    ensures sound { IfOk result (λ f. IsSound (view f)) }
    ensures fault { IfErr result (λ e. IsRefusalFor (IsUnscheduled schedule.now (view file)) e) }
{
    match schedule {
        None => Ok(file),
        Some(words) => with_words(alloc, file, words.as_bytes()),
    }
}

/// The script that these bytes are, with the schedule of the words in the place of its own, where there are words.
pub(crate) fn scheduled_in(
    alloc: Global,
    bytes: &[u8],
    schedule: &Option<GivenText>,
) -> Result<File, Refusal>
    ensures file { IfOk result (λ file. IsScheduled schedule.now bytes.now (view file)) }
    ensures sound { IfOk result (λ file. IsSound (view file)) }
    ensures fault { IfErr result (λ e. IsRefusalFor (IsScheduledFault schedule.now bytes.now) e) }
{
    let file = file_in(alloc, bytes)?;
    scheduled(alloc, file, schedule)
}
