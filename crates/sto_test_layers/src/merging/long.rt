//! Long runs, and what their journals are to be.
//!
//! Eight threads take turns: each transaction ends one time after the one before it. Of each four positions the first reads, and
//! the others write, with odd tickets; even ones were dropped. Before it ends, each fourth position has an aborted attempt, which
//! began after the thread's own last writer and found the writer of the time before it.
ghost use Rattle.std.specs.Prelude.{◌≡◌, ◌≤◌, ◌<◌, ◌^◌, ◌%◌, length};

use crate::merging::merged::journal_of;
use std::alloc::{AllocError, Global};
use sto_attempt::Verdict;
use sto_journal::{AbortLine, Cause, Ending, Journal, Line};
use sto_model::{Rows, State};
use sto_part::{List, NoMemory};
use sto_transaction::Record;

const THREADS: u32 = 8;

// The ticket of the writer that ends at this time.
fn ticket_at(time: u32) -> u64 {
    2 * u64::from(time) + 1
}

// What the transaction that ends at this time tells.
fn ended(time: u32, position: u32) -> Verdict {
    if position % 4 == 1 {
        Verdict::Read {
            at: 2 * u64::from(time),
        }
    } else {
        Verdict::Wrote {
            ticket: ticket_at(time),
        }
    }
}

fn record(alloc: Global, thread: u32, position: u32, verdict: Verdict) -> Record {
    Record {
        thread,
        position,
        replies: List::new(alloc),
        verdict,
    }
}

// The records of the transaction at a position of a thread.
fn add_transaction(
    records: &mut Vec<Record>,
    alloc: Global,
    thread: u32,
    position: u32,
) -> Result<(), AllocError>
    requires { (thread < 8) × (1 ≤ position) × (position ≤ 1000) }
{
    let time = (position - 1) * THREADS + thread;
    if position % 4 == 0 {
        let changed = Verdict::Changed {
            at: ticket_at(time - THREADS),
            part: 0,
            ticket: ticket_at(time - 1),
        };
        records.push(record(alloc, thread, position, changed))?;
    }
    records.push(record(alloc, thread, position, ended(time, position)))?;
    Ok(())
}

fn add_thread(
    records: &mut Vec<Record>,
    alloc: Global,
    thread: u32,
    positions: u32,
) -> Result<(), AllocError>
    requires { (thread < 8) × (positions ≤ 1000) }
{
    for position in 1..positions + 1 {
        add_transaction(records, alloc, thread, position)?;
    }
    Ok(())
}

// All records, thread by thread.
fn records_of(alloc: Global, positions: u32) -> Result<Vec<Record>, AllocError>
    requires { positions ≤ 1000 }
{
    let mut records = Vec::new(alloc);
    for thread in 0..THREADS {
        add_thread(&mut records, alloc, thread, positions)?;
    }
    Ok(records)
}

// How many writers have ended up to a time.
fn writers_up_to(time: usize) -> usize
    requires { time < 2 ^ 40 }
{
    let turns = time / 8;
    let before = 8 * (turns - turns.div_ceil(4));
    if turns % 4 == 0 {
        before
    } else {
        before + time % 8 + 1
    }
}

fn is_line_at(line: &Line, time: usize) -> bool
    requires { time < 2 ^ 32 }
{
    let position = time / 8 + 1;
    let end = if position % 4 == 1 {
        Ending::Read
    } else {
        Ending::Commit
    };
    line.k as usize == writers_up_to(time)
        && (line.thread as usize, line.position as usize) == (time % 8, position)
        && line.end == end
}

// Whether the lines stand in the order of the times.
fn are_lines(lines: &[Line]) -> bool
    requires { length lines.now < 2 ^ 32 }
{
    for (time, line) in lines.iter().enumerate() {
        if !is_line_at(line, time) {
            return false;
        }
    }
    true
}

fn is_abort_of(line: &AbortLine, thread: usize, position: usize) -> bool
    requires { (thread < 2 ^ 32) × (4 ≤ position) × (position < 2 ^ 32) }
{
    let time = (position - 1) * 8 + thread;
    let Cause::Changed { by, .. } = line.cause else {
        return false;
    };
    (line.thread as usize, line.position as usize) == (thread, position)
        && line.at as usize == writers_up_to(time - 8)
        && by as usize == writers_up_to(time - 1)
}

// Whether the abort lines stand by thread, and in a thread by position.
fn are_aborts(lines: &[AbortLine], of_each: usize) -> bool
    requires few { length lines.now < 2 ^ 32 }
    requires some { (1 ≤ of_each) × (of_each ≤ 250) }
{
    for (number, line) in lines.iter().enumerate() {
        if !is_abort_of(line, number / of_each, 4 * (number % of_each) + 4) {
            return false;
        }
    }
    true
}

/// Whether the journal of a long run with so many positions in each thread has its lines and its abort lines in their places. For
/// each position there are ten records.
pub(crate) fn is_in_order(alloc: Global, positions: u32) -> Result<bool, NoMemory>
    requires { (4 ≤ positions) × (positions ≤ 1000) }
{
    let records = records_of(alloc, positions).map_err(|_| NoMemory)?;
    let mut state = State::new(alloc);
    state.push(Rows::new(alloc))?;
    let Some(journal) = journal_of(alloc, records, state)? else {
        return Ok(false);
    };
    let (lines, aborts) = (journal.lines.as_slice(), journal.aborts.as_slice());
    Ok(
        lines.len() == 8 * positions as usize
            && aborts.len() == 2 * positions as usize
            && are_lines(lines)
            && are_aborts(aborts, positions as usize / 4),
    )
}
