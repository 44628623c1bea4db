//! Keys of nodes.
ghost use Rattle.std.specs.Prelude.{◌≡◌, ◌==◌, ◌+◌, ◌<◌, ◌≤◌, ◌^◌, ◌++◌, [], length, map, count_by, OnOk, IfOk, string_bytes};
ghost use Rattle.sto_lang.specs.Views.{file as view, names_of};
ghost use Rattle.sto_report_spec.specs.Orders.{positions_of, numbers_from};
ghost use Rattle.sto_journal.specs.Journals.{entry, places, HaveThreads};
ghost use Rattle.sto_orders.specs.Outcomes.{answer_text, compared_text, own_text, thread_text, counted_by};
ghost use Rattle.sto_orders.specs.Keys.{done_in, last_writers, IsReplayed, IsKeyOf};

use crate::same_by::SameBy;
use std::alloc::{AllocError, Global};
use sto_journal::{Line, push_line, push_replies};
use sto_lang::{File, Thread};
use sto_model::State;
use sto_part::NoMemory;

/// What decides how a run of whole transactions goes on, and what is compared of it: how many transactions each thread has done, the
/// text of what these did, how many writers there were, and the rows of each object. Where a text or a number is not compared, it is
/// left out.
#[derive(PartialEq, Eq, PartialOrd, Ord, Drop)]
pub(crate) struct Key {
    pub(crate) done: Vec<u32>,
    pub(crate) threads: Vec<String>,
    pub(crate) writers: u32,
    pub(crate) rows: Vec<Vec<(i64, i64)>>,
}

/// The key of the node to which a replay leads that has these lines and leaves this state.
pub(crate) fn key_of(
    alloc: Global,
    file: &File,
    by: SameBy,
    lines: &[Line],
    state: &State,
) -> Result<Key, NoMemory>
    requires few { length file.now.threads.items < 2 ^ 32 }
    requires lines { HaveThreads (length file.now.threads.items) lines.now }
    requires short { length lines.now < 2 ^ 32 }
    requires replayed { IsReplayed (view file.now) lines.now state.now.items }
    ensures { IfOk result (λ key. IsKeyOf by (view file.now) (places lines.now) key) }
{
    let threads = file.threads.as_slice();
    let done = all_done(alloc, file.threads.len(), lines)?;
    let texts = all_texts(alloc, threads, by, lines)?;
    let rows = rows_of(alloc, state)?;
    Ok(Key {
        done,
        threads: texts,
        writers: counted_by(by, writers_in(lines)),
        rows,
    })
}

// How many writers there are up to the last line.
fn writers_in(lines: &[Line]) -> u32
    ensures { result ≡ last_writers 0 (map entry lines.now) }
{
    let mut writers = 0;
    for line in lines {
        writers = line.k;
    }
    writers
}

// How many writers there are, where their numbers are compared.
fn counted_by(by: SameBy, writers: u32) -> u32
    ensures { result ≡ counted_by by writers }
{
    match by {
        SameBy::State | SameBy::Answers => 0,
        SameBy::Order => writers,
    }
}

// How many of the lines are of a thread.
fn lines_of(lines: &[Line], thread: u32) -> usize
    ensures count { result ≡ count_by (λ l. l.thread == thread) lines.now }
    ensures few { result ≤ length lines.now }
{
    lines.iter().filter(|line| line.thread == thread).count()
}

// How many transactions of a thread the lines tell.
fn done_in(lines: &[Line], thread: u32) -> u32
    requires { length lines.now < 2 ^ 32 }
    ensures { result ≡ done_in (places lines.now) thread }
{
    lines_of(lines, thread) as u32
}

// The same of each thread.
fn all_done(alloc: Global, threads: u32, lines: &[Line]) -> Result<Vec<u32>, NoMemory>
    requires { length lines.now < 2 ^ 32 }
    ensures { IfOk result (λ done. done.items ≡ map (done_in (places lines.now)) (numbers_from 0 threads)) }
{
    let mut done = Vec::new(alloc);
    for thread in 0..threads {
        if done.push(done_in(lines, thread)).is_err() {
            return Err(NoMemory);
        }
    }
    Ok(done)
}

// Adds how a transaction ended and what it was answered.
fn push_answer(out: &mut String, line: &Line) -> Result<(), AllocError>
    ensures { OnOk result (string_bytes out.new ≡ string_bytes out.old ++ answer_text (entry line.now)) }
{
    out.push_str(line.end.word())?;
    push_replies(out, line.replies.as_slice())?;
    out.push_str("\n")
}

// Adds what is compared of a transaction.
fn push_compared(
    out: &mut String,
    threads: &[Thread],
    by: SameBy,
    line: &Line,
) -> Result<(), AllocError>
    requires { line.now.thread < length threads.now }
    ensures { OnOk result (string_bytes out.new ≡ string_bytes out.old ++ compared_text by (names_of threads.now) (entry line.now)) }
{
    match by {
        SameBy::State => Ok(()),
        SameBy::Answers => push_answer(out, line),
        SameBy::Order => push_line(out, threads, line),
    }
}

// Adds it where the transaction is one of a thread.
fn push_own(
    out: &mut String,
    threads: &[Thread],
    by: SameBy,
    thread: u32,
    line: &Line,
) -> Result<(), AllocError>
    requires { line.now.thread < length threads.now }
    ensures { OnOk result (string_bytes out.new ≡ string_bytes out.old ++ own_text by (names_of threads.now) thread (entry line.now)) }
{
    if line.thread == thread {
        push_compared(out, threads, by, line)
    } else {
        Ok(())
    }
}

// What is compared of the transactions of a thread.
fn thread_text(
    alloc: Global,
    threads: &[Thread],
    by: SameBy,
    thread: u32,
    lines: &[Line],
) -> Result<String, AllocError>
    requires { HaveThreads (length threads.now) lines.now }
    ensures { IfOk result (λ text. string_bytes text ≡ thread_text by (names_of threads.now) (map entry lines.now) thread) }
{
    let mut text = String::new(alloc);
    for line in lines {
        push_own(&mut text, threads, by, thread, line)?;
    }
    Ok(text)
}

// The same of each thread.
fn all_texts(
    alloc: Global,
    threads: &[Thread],
    by: SameBy,
    lines: &[Line],
) -> Result<Vec<String>, NoMemory>
    requires few { length threads.now < 2 ^ 32 }
    requires lines { HaveThreads (length threads.now) lines.now }
    ensures { IfOk result (λ texts. map string_bytes texts.items
        ≡ map (thread_text by (names_of threads.now) (map entry lines.now)) (numbers_from 0 (length threads.now))) }
{
    let mut texts = Vec::new(alloc);
    for thread in 0..threads.len() as u32 {
        let text = match thread_text(alloc, threads, by, thread, lines) {
            Ok(text) => text,
            Err(AllocError) => return Err(NoMemory),
        };
        if texts.push(text).is_err() {
            return Err(NoMemory);
        }
    }
    Ok(texts)
}

// The rows of each object.
fn rows_of(alloc: Global, state: &State) -> Result<Vec<Vec<(i64, i64)>>, NoMemory>
    ensures { IfOk result (λ all. map (λ rows. rows.items) all.items ≡ state.now.items) }
{
    let mut all = Vec::new(alloc);
    for object in 0..state.len() {
        let rows = match Vec::from_slice(alloc, state.get(object).as_slice()) {
            Ok(rows) => rows,
            Err(AllocError) => return Err(NoMemory),
        };
        if all.push(rows).is_err() {
            return Err(NoMemory);
        }
    }
    Ok(all)
}
