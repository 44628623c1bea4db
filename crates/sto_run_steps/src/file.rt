//! A whole file, stepped.
ghost use Rattle.std.specs.Prelude.{◌≡◌, ◌≤◌, ◌<◌, [], max, length, IfOk, Some, None};
ghost use Rattle.std.specs.List.{All, flat_map};
ghost use Rattle.sto_core.specs.Opened.{opened_core};
ghost use Rattle.sto_run_threads.specs.Plans.{Opens, thread_count, transaction_count};
ghost use Rattle.sto_run_threads.specs.Told.{told_in};
ghost use Rattle.sto_run_threads.specs.Worked.{AbortsNone};
ghost use Rattle.sto_run_threads.specs.Runs.{IsFinished};
ghost use Rattle.sto_run_steps.specs.Seated.{AreNew, AreSeated};
ghost use Rattle.sto_run_steps.specs.Logged.{kept};
ghost use Rattle.sto_run_steps.specs.Turning.{WereStepped};

use crate::attempts::Attempts;
use crate::log::RunLog;
use crate::seat::Seat;
use crate::spare::Spare;
use crate::stage::Stage;
use std::alloc::Global;
use sto_lang::Turns;
use sto_part::{Contents, Naming, NoMemory};
use sto_plain::Plain;
use sto_run_threads::{FinishedRun, Work, run_left};
use sto_trace::{Noting, Steps};
use sto_transaction::Record;

// How many passes there are: one for each script thread, and one where there is none.
fn passes_of<T: Naming, W: Work<T>>(work: &W) -> u32
    ensures { result ≡ max 1 (thread_count (W.plan work.now)) }
{
    match work.threads() {
        0 => 1,
        threads => threads,
    }
}

// How many transactions the thread of a pass has.
#[tactic(auto, using(crate::proofs::Opening::none_past))]
fn count_of<T: Naming, W: Work<T>>(work: &W, thread: u32) -> u32
    ensures { result ≡ transaction_count (W.plan work.now) thread }
{
    if thread < work.threads() {
        work.count(thread)
    } else {
        0
    }
}

// A seat for each pass, which is lent spare memory.
fn seats_of<T: Naming, M: Drop, W: Attempts<T, M>>(
    work: &W,
    alloc: Global,
    spare: &mut Spare,
) -> Result<Vec<Seat<M>>, NoMemory>
    ensures many { IfOk result (λ seats. length seats.items ≡ max 1 (thread_count (W.plan work.now))) }
    ensures begun { IfOk result (λ seats. AreNew (W.plan work.now) seats.items) }
{
    let tries = work.most_tries();
    let passes = passes_of(work);
    let mut seats = match Vec::with_capacity(alloc, passes as usize) {
        Ok(seats) => seats,
        Err(_) => return Err(NoMemory),
    };
    for thread in 0..passes {
        let memory = spare.take_memory(alloc);
        match seats.push(Seat::new(alloc, count_of(work, thread), tries, memory)) {
            Ok(()) => {}
            Err(_) => return Err(NoMemory),
        }
    }
    Ok(seats)
}

// Opens the words with a pass for each seat, and begins with a log.
fn open<T: Naming, M: Drop, W: Attempts<T, M>>(
    work: &W,
    alloc: Global,
    ty: &T,
    contents: &Contents,
    log: RunLog,
    spare: &mut Spare,
) -> Result<Stage<T, M>, NoMemory>
    requires opens { Opens (W.plan work.now) T.valid (T.sizes ty.now) contents.now.items }
    requires threads { thread_count (W.plan work.now) ≤ 65536 }
    ensures many { IfOk result (λ s. length s.seats.items ≡ max 1 (thread_count (W.plan work.now))) }
    ensures opened { IfOk result (λ s. s.pass.cells.plain ≡ opened_core (T.sizes ty.now) contents.now.items (length s.seats.items)) }
    ensures begun { IfOk result (λ s. AreNew (W.plan work.now) s.seats.items) }
    ensures log { IfOk result (λ s. s.log ≡ log) }
    ensures seated { IfOk result (λ s. AreSeated (W.plan work.now) (W.fits work.now) s.pass.cells.plain s.seats.items) }
{
    let seats = seats_of(work, alloc, spare)?;
    let words = Plain::open(alloc, ty, contents, seats.len() as u32)?;
    let pass = Noting {
        cells: words.at(0),
        deed: None,
    };
    Ok(Stage { pass, seats, log })
}

// The records of all threads, thread by thread. Their memory is spare again.
fn records_of<M: Drop>(
    alloc: Global,
    seats: Vec<Seat<M>>,
    spare: &mut Spare,
) -> Result<Vec<Record>, NoMemory>
    ensures { IfOk result (λ records. records.items ≡ flat_map (λ seat. seat.records.items) seats.items) }
{
    let mut records = Vec::new(alloc);
    for seat in seats {
        let (mut own, memory) = seat.into_parts();
        if records.append(&mut own).is_err() {
            return Err(NoMemory);
        }
        spare.keep_memory(memory)?;
    }
    Ok(records)
}

/// Steps the script threads of a file, each on a pass of its own: by the schedule first, then one event each in rising thread number until
/// each has ended or stopped. What was handed back is then run on the one pass of the reopened words, in rising thread and position.
///
/// An entry of the schedule, or the rest of one, for a thread that has ended or stopped is skipped.
pub fn step_threads<T: Naming, M: Drop, W: Attempts<T, M>>(
    work: &W,
    alloc: Global,
    ty: &T,
    contents: &Contents,
    schedule: &[Turns],
) -> Result<FinishedRun<T>, NoMemory>
    requires ready { W.ready work.now }
    requires opens { Opens (W.plan work.now) T.valid (T.sizes ty.now) contents.now.items }
    requires threads { thread_count (W.plan work.now) ≤ 65536 }
    requires schedule { All (λ turns. turns.thread < thread_count (W.plan work.now)) schedule.now }
    ensures finished { IfOk result (IsFinished (W.plan work.now)) }

    // Each event is made in the turn of its thread.
    ensures stepped { IfOk result (λ run. WereStepped (W.plan work.now) (W.fits work.now) T.valid (W.heard work.now) schedule.now
        (opened_core (T.sizes ty.now) contents.now.items (max 1 (thread_count (W.plan work.now)))) None (told_in run.records) None) }

    // With one thread no attempt is aborted.
    ensures alone { thread_count (W.plan work.now) ≤ 1 → IfOk result (λ run. AbortsNone [] (told_in run.records)) }
{
    let mut spare = Spare::new(alloc);
    let (run, _) = log_threads(work, alloc, ty, contents, schedule, None, &mut spare)?;
    Ok(run)
}

/// Steps the script threads of a file as [`step_threads`] does, and tells the steps that they made by the schedule and in turn, in their
/// order. It tells none where they made more than 100,000. The run of what was handed back is not among them.
///
/// The run is lent what is spare, and gives back all but the steps, which the caller may keep there too.
pub fn trace_threads<T: Naming, M: Drop, W: Attempts<T, M>>(
    work: &W,
    alloc: Global,
    ty: &T,
    contents: &Contents,
    schedule: &[Turns],
    spare: &mut Spare,
) -> Result<(FinishedRun<T>, Option<Steps>), NoMemory>
    requires ready { W.ready work.now }
    requires opens { Opens (W.plan work.now) T.valid (T.sizes ty.now) contents.now.items }
    requires threads { thread_count (W.plan work.now) ≤ 65536 }
    requires schedule { All (λ turns. turns.thread < thread_count (W.plan work.now)) schedule.now }
    ensures finished { IfOk result (λ r. IsFinished (W.plan work.now) r.0) }

    // Each event is made in the turn of its thread, and the steps are these events.
    ensures traced { IfOk result (λ r. WereStepped (W.plan work.now) (W.fits work.now) T.valid (W.heard work.now) schedule.now
        (opened_core (T.sizes ty.now) contents.now.items (max 1 (thread_count (W.plan work.now)))) (Some []) (told_in r.0.records)
        (kept r.1)) }

    // With one thread no attempt is aborted.
    ensures alone { thread_count (W.plan work.now) ≤ 1 → IfOk result (λ r. AbortsNone [] (told_in r.0.records)) }
{
    let log = Some(spare.take_steps(alloc));
    log_threads(work, alloc, ty, contents, schedule, log, spare)
}

// Steps the script threads, and adds to a log.
fn log_threads<T: Naming, M: Drop, W: Attempts<T, M>>(
    work: &W,
    alloc: Global,
    ty: &T,
    contents: &Contents,
    schedule: &[Turns],
    log: RunLog,
    spare: &mut Spare,
) -> Result<(FinishedRun<T>, RunLog), NoMemory>
    requires ready { W.ready work.now }
    requires opens { Opens (W.plan work.now) T.valid (T.sizes ty.now) contents.now.items }
    requires threads { thread_count (W.plan work.now) ≤ 65536 }
    requires schedule { All (λ turns. turns.thread < thread_count (W.plan work.now)) schedule.now }
    ensures finished { IfOk result (λ r. IsFinished (W.plan work.now) r.0) }
    ensures stepped { IfOk result (λ r. WereStepped (W.plan work.now) (W.fits work.now) T.valid (W.heard work.now) schedule.now
        (opened_core (T.sizes ty.now) contents.now.items (max 1 (thread_count (W.plan work.now)))) (kept log) (told_in r.0.records)
        (kept r.1)) }
    ensures alone { thread_count (W.plan work.now) ≤ 1 → IfOk result (λ r. AbortsNone [] (told_in r.0.records)) }
{
    let mut stage = open(work, alloc, ty, contents, log, spare)?;
    stage.follow(work, alloc, schedule)?;
    stage.finish(work, alloc)?;
    let Stage {
        pass: last,
        seats,
        log,
    } = stage;
    let mut records = records_of(alloc, seats, spare)?;
    let words = match Plain::reopen(last.cells.back().close()) {
        Ok(words) => words,
        Err(_) => return Err(NoMemory),
    };
    let mut pass = words.at(0);
    run_left(work, alloc, &mut pass, &mut records)?;
    let words = pass.back();
    Ok((FinishedRun { records, words }, log))
}
