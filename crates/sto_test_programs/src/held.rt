//! Runs on two workers under gates, which show what no clause can say: that both workers run.
//!
//! In the first, an attempt is held between its read and its commit until another transaction has committed. So it is aborted,
//! and the report names the change. The feed then does the same. In the second, one worker is held until the other has run all other script threads. A
//! worker that had threads of its own would leave some to the one that is held. In the third, the transactions of the
//! generated script are counted as they end. In the fourth, a transaction that may be tried once is aborted, and listed all the
//! same; so are both where no gate holds them. Last, the generated script is run on four workers, and each report is compared with
//! the replay of its own order.
use crate::gates::{Ends, Middle, Others};
use crate::outcome::{Outcome, outcome_of, outcome_of_feed};
use crate::replays::{is_replay, transfers_of};
use std::alloc::{AllocError, Global};
use std::io;
use std::sync::Wait;
use std::thread::Threads;
use sto_cli::NoGate;

const ON_TWO: &str = "run --threads 2";

const FED_TO_TWO: &str = "--threads 2";

const WITH_ONE_TRY: &str = "run --threads 2 --tries 1";

// How often what no gate holds is run.
const RUNS: u32 = 200;

const ON_FOUR: &str = "run --threads 4";

// How often the generated script is run.
const REPORTS: u32 = 100;

// Two threads raise one box.
const LOST_UPDATE: &str = "box a 0
thread
begin
x = get a
y = sum x 1
set a y
commit
thread
begin
x = get a
y = sum x 1
set a y
commit
";

const FOUR_THREADS: &str = "box a 0
thread
begin
x = get a
commit
thread
begin
x = get a
commit
thread
begin
x = get a
commit
thread
begin
x = get a
commit
";

const WRITE_SKEW: &str = "box x 1
box y 1
thread
begin
p = get x
q = get y
set x 0
commit
thread
begin
p = get x
q = get y
set y 0
commit
";

fn print_outcome(rt: &HostRuntime, outcome: &Outcome) -> io::Result<()> {
    println!(rt; "{}status {}", outcome.written, outcome.status)
}

fn lines_with(report: &str, words: &str) -> usize {
    report.lines().filter(|line| line.contains(words)).count()
}

// How many of the runs list each transaction once.
fn complete_runs<R: Threads + Sync>(rt: &R, alloc: Global) -> Result<u32, AllocError> {
    let mut complete = 0_u32;
    for _ in 0..RUNS {
        let report = outcome_of(rt, alloc, WITH_ONE_TRY, WRITE_SKEW, &NoGate)?;
        let report = report.written.as_str();
        if lines_with(report, " t0.1 commit ") == 1 && lines_with(report, " t1.1 commit ") == 1 {
            complete = complete.saturating_add(1);
        }
    }
    Ok(complete)
}

// How many of the reports of the generated script on four workers are what its transactions do one after the other.
fn replayed_reports<R: Threads + Sync>(rt: &R, alloc: Global) -> Result<u32, AllocError> {
    let script = outcome_of(rt, alloc, "gen 1", "", &NoGate)?;
    let Some(script) = script.report() else {
        return Ok(0);
    };
    let transfers = transfers_of(alloc, script)?;
    let mut replayed = 0_u32;
    for _ in 0..REPORTS {
        let outcome = outcome_of(rt, alloc, ON_FOUR, script, &NoGate)?;
        if let Some(report) = outcome.report() {
            let holds = is_replay(alloc, transfers.as_slice(), report)?;
            replayed = replayed.saturating_add(u32::from(holds));
        }
    }
    Ok(replayed)
}

// Holds a worker of `run` in the middle of a transaction.
fn hold_one<R: Threads + Sync>(
    rt: &HostRuntime,
    threads: &R,
    words: &str,
    script: &str,
    events: u64,
) -> io::Result<()> {
    let middle = Middle::new(events);
    let outcome = outcome_of(threads, rt.alloc(), words, script, &middle)?;
    print_outcome(rt, &outcome)?;
    println!(rt; "both seen: {}", middle.has_seen_both())
}

// Holds a worker of `feed` so.
fn hold_one_of_feed<R: Threads + Wait + Sync>(rt: &HostRuntime, threads: &R) -> io::Result<()> {
    let middle = Middle::new(4);
    let outcome = outcome_of_feed(threads, rt.alloc(), FED_TO_TWO, LOST_UPDATE, &middle)?;
    print_outcome(rt, &outcome)?;
    println!(rt; "both seen: {}", middle.has_seen_both())
}

// Holds a worker until the other one has run all other threads.
fn hold_at_first<R: Threads + Sync>(rt: &HostRuntime, threads: &R) -> io::Result<()> {
    let others = Others::new();
    let outcome = outcome_of(threads, rt.alloc(), ON_TWO, FOUR_THREADS, &others)?;
    print_outcome(rt, &outcome)?;
    println!(rt; "all seen in time: {}", others.has_seen_all())
}

fn count_ends<R: Threads + Sync>(rt: &HostRuntime, threads: &R) -> io::Result<()> {
    let ends = Ends::new();
    let outcome = outcome_of(threads, rt.alloc(), "bench 1", "", &ends)?;
    print_outcome(rt, &outcome)?;
    println!(rt; "transactions that ended: {}", ends.count())
}

/// Runs all of these.
pub fn hold_all<R: Threads + Wait + Sync>(rt: &HostRuntime, threads: &R) -> io::Result<()> {
    hold_one(rt, threads, ON_TWO, LOST_UPDATE, 4)?;
    hold_one_of_feed(rt, threads)?;
    hold_at_first(rt, threads)?;
    count_ends(rt, threads)?;
    hold_one(rt, threads, WITH_ONE_TRY, WRITE_SKEW, 7)?;
    let complete = complete_runs(threads, rt.alloc())?;
    println!(rt; "{complete} of {RUNS} runs list both transactions")?;
    let replayed = replayed_reports(threads, rt.alloc())?;
    println!(rt; "{replayed} of {REPORTS} reports are their replays")
}
