//! The schedule that words are.
ghost use Rattle.std.specs.Prelude.{◌≡◌, ◌<◌, ◌^◌, length, Ok, IfOk, IfErr};
ghost use Rattle.sto_syntax.specs.Views.{entries as entries_of};
ghost use Rattle.sto_lang.specs.Sound.{IsSound};
ghost use Rattle.sto_lang.specs.Views.{file as view};
ghost use Rattle.sto_schedule.specs.declared.read.ScheduleError.TheVariants as errors;
ghost use Rattle.sto_schedule.specs.Schedules.{entries_in, schedule_of, with_schedule, IsFault, IsCause};

use crate::entry::{are_known_threads, are_turns, turns};
use std::alloc::Global;
use sto_lang::{FaultKind, File, Schedule};
use sto_part::NoMemory;
use sto_syntax::Entries;

/// Why words were not taken as a schedule.
#[derive(Clone, Copy, PartialEq, Eq, Debug)]
pub enum ScheduleError {
    /// A line `schedule` with these words would have this fault.
    Fault(FaultKind),
    NoMemory,
}

impl From<NoMemory> for ScheduleError {
    ghost from_gives = { λ _ e. e ≡ errors.NoMemory };

    fn from(_why: NoMemory) -> ScheduleError {
        ScheduleError::NoMemory
    }
}

#[tactic(auto, using(sto_lang::proofs::ThreadLemmas::turns_in_range))]
// The entries as those of a schedule of a file.
fn schedule_in(alloc: Global, file: &File, entries: Entries<'_>) -> Result<Schedule, ScheduleError>
    requires { IsSound (view file.now) }
    ensures schedule { IfOk result (λ s. entries_in (view file.now) (entries_of entries.entry) ≡ Ok s.items) }
    ensures cause { IfErr result (IsFault (entries_in (view file.now) (entries_of entries.entry))) }
{
    let threads = file.threads.as_slice();
    if !entries.are_numbers() {
        return Err(ScheduleError::Fault(FaultKind::BadNumber));
    }
    if !are_known_threads(threads, entries) {
        return Err(ScheduleError::Fault(FaultKind::UnknownName));
    }
    if !are_turns(file.threads.len(), entries) {
        return Err(ScheduleError::Fault(FaultKind::OutOfLimits));
    }
    let schedule = turns(alloc, threads, entries)?;
    Ok(schedule)
}

// The schedule of a file that words are.
fn read_schedule(alloc: Global, file: &File, words: &[u8]) -> Result<Schedule, ScheduleError>
    requires { IsSound (view file.now) }
    ensures schedule { IfOk result (λ s. schedule_of (view file.now) words.now ≡ Ok s.items) }
    ensures cause { IfErr result (IsFault (schedule_of (view file.now) words.now)) }
{
    if words.len() > u32::MAX as usize {
        return Err(ScheduleError::NoMemory);
    }
    let Some(entries) = Entries::of(file.version, words) else {
        return Err(ScheduleError::Fault(FaultKind::BadLine));
    };
    if entries.next().is_none() {
        return Err(ScheduleError::Fault(FaultKind::BadLine));
    }
    schedule_in(alloc, file, entries)
}

/// The file with the schedule that words are, in the place of its own: entries `THREAD:STEPS` with blanks between them, as behind the word
/// `schedule` of its script. A thread is told by its number, and in version 2 of the language by its name.
///
/// `Fault` comes only where a line of the script could not have these words, and has the kind that this line would be refused for (a sign
/// that no script has, a bad byte there, is of no word here):
/// `BadLine` where they are no entries or none at all, `BadNumber`, `UnknownName` for a thread that there is not, and `OutOfLimits`.
/// `NoMemory` comes also for words of 2^32 bytes and more.
pub fn with_schedule(alloc: Global, file: File, words: &[u8]) -> Result<File, ScheduleError>
    requires { IsSound (view file) }
    ensures file { IfOk result (λ f. with_schedule (view file) words.now ≡ Ok (view f)) }
    ensures sound { IfOk result (λ f. IsSound (view f)) }
    ensures cause { IfErr result (IsCause (view file) words.now) }
{
    let schedule = read_schedule(alloc, &file, words)?;
    let mut changed = file;
    changed.schedule = Some(schedule);
    Ok(changed)
}
