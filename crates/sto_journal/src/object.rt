//! The JSON form of a report.
ghost use Rattle.std.specs.Prelude.{◌≡◌, ◌++◌, ◌<◌, ◌^◌, codes, length, IfOk, string_bytes, map, is_some, true};
ghost use Rattle.std.specs.List.{All};
ghost use Rattle.serde_json.specs.Data.{string, array, object as members, member, no_members};
ghost use Rattle.serde_json.specs.View.{view, items_of};
ghost use Rattle.sto_model.specs.PlainReplies.{plain_reply};
ghost use Rattle.sto_lang.specs.Objects.{HaveNames, with_number};
ghost use Rattle.sto_lang.specs.Views.{declaration, names_of};
ghost use Rattle.sto_report_spec.specs.Report.{reply_text};
ghost use Rattle.sto_report_spec.specs.Json.{listed, numeral, reply_data, entry_data, abort_data, object_data, report_data, json_text};
ghost use Rattle.sto_report_spec.specs.Named.{AreNames};
ghost use Rattle.sto_report_spec.specs.NamedJson.{json_order_named, json_aborts_named};
ghost use Rattle.sto_report_spec.specs.Short.{IsShortEntry, IsShortAbort};
ghost use Rattle.sto_journal.specs.Journals.{IsShortlyTold, told_data, entry, abort, places, HaveRows, HaveThreads, IsAbortOf, AreAbortsOf};

use crate::names::{object_name, thread_name};
use crate::replies::push_reply;
use crate::rows::push_rows;
use crate::{AbortLine, Cause, Journal, Line};
use serde_json::{Value, json};
use std::alloc::{AllocError, Global};
use sto_lang::{Decl, File, Text, Thread};
use sto_model::{Reply, State};
use sto_part::NoMemory;

fn reply_value(alloc: Global, reply: &Reply) -> Result<Value, AllocError>
    ensures value { IfOk result (λ v. view v ≡ told_data reply.now) }
    ensures short { IfOk result (λ _. IsShortlyTold reply.now) }
{
    let mut text = String::new(alloc);
    push_reply(&mut text, reply)?;
    Ok(Value::String(text))
}

fn reply_values(alloc: Global, replies: &[Reply]) -> Result<Value, AllocError>
    ensures value { IfOk result (λ v. view v ≡ array (items_of (map told_data replies.now))) }
    ensures short { IfOk result (λ _. All IsShortlyTold replies.now) }
{
    let mut items = Vec::new(alloc);
    for reply in replies {
        items.push(reply_value(alloc, reply)?)?;
    }
    Ok(Value::Array(items))
}

#[tactic(auto, using(crate::proofs::Values::listed_told))]
fn replies_value(alloc: Global, replies: &[Reply]) -> Result<Value, AllocError>
    ensures value { IfOk result (λ v. view v ≡ listed reply_data (map plain_reply replies.now)) }
    ensures short { IfOk result (λ _. All IsShortlyTold replies.now) }
{
    reply_values(alloc, replies)
}

fn entry_value(alloc: Global, threads: &[Thread], line: &Line) -> Result<Value, AllocError>
    requires { line.now.thread < length threads.now }
    ensures value { IfOk result (λ v. view v ≡ entry_data (names_of threads.now) (entry line.now)) }
    ensures short { IfOk result (λ _. IsShortEntry (names_of threads.now) (entry line.now)) }
{
    let Line {
        k,
        thread,
        position,
        end,
        replies,
    } = line;
    let (k, position) = (*k, *position);
    let replies = replies_value(alloc, replies.as_slice())?;
    let name = thread_name(threads, *thread);
    json!(in alloc; {"end": end.word(), "k": k, "position": position, "replies": replies, "thread": name})
}

fn entry_values(alloc: Global, threads: &[Thread], lines: &[Line]) -> Result<Value, AllocError>
    requires { HaveThreads (length threads.now) lines.now }
    ensures value { IfOk result (λ v. view v ≡ listed (entry_data (names_of threads.now)) (map entry lines.now)) }
    ensures short { IfOk result (λ _. All (λ l. IsShortEntry (names_of threads.now) (entry l)) lines.now) }
{
    let mut items = Vec::new(alloc);
    for line in lines {
        items.push(entry_value(alloc, threads, line)?)?;
    }
    Ok(Value::Array(items))
}

fn locked_value(
    alloc: Global,
    at: u32,
    object: &str,
    part: u32,
    position: u32,
    saw: Value,
    thread: &str,
) -> Result<Value, AllocError>
    ensures value { IfOk result (λ v. view v ≡ members (member (codes "at") (numeral at)
        (member (codes "cause") (string (codes "locked")) (member (codes "object") (string object.now)
        (member (codes "part") (numeral part) (member (codes "position") (numeral position)
        (member (codes "saw") (view saw) (member (codes "thread") (string thread.now) no_members)))))))) }
    ensures short { part < 2 ^ 64 }
{
    json!(in alloc; {"at": at, "cause": "locked", "object": object, "part": part, "position": position, "saw": saw, "thread": thread})
}

fn changed_value(
    alloc: Global,
    at: u32,
    by: u32,
    object: &str,
    part: u32,
    position: u32,
    saw: Value,
    thread: &str,
) -> Result<Value, AllocError>
    ensures value { IfOk result (λ v. view v ≡ members (member (codes "at") (numeral at)
        (member (codes "by") (numeral by) (member (codes "cause") (string (codes "changed"))
        (member (codes "object") (string object.now) (member (codes "part") (numeral part)
        (member (codes "position") (numeral position) (member (codes "saw") (view saw)
        (member (codes "thread") (string thread.now) no_members))))))))) }
    ensures part { part < 2 ^ 64 }
    ensures writer { by < 2 ^ 64 }
{
    json!(in alloc; {"at": at, "by": by, "cause": "changed", "object": object, "part": part, "position": position, "saw": saw, "thread": thread})
}

#[tactic(auto, using(crate::proofs::Shorts::abort_short, crate::proofs::Shorts::replies_short, crate::proofs::Shorts::locked_short, crate::proofs::Shorts::changed_short))]
fn abort_value(
    alloc: Global,
    threads: &[Thread],
    decls: &[Decl],
    line: &AbortLine,
) -> Result<Value, AllocError>
    requires names { HaveNames (map declaration decls.now) }
    requires known { IsAbortOf (length threads.now) (map declaration decls.now) line.now }
    ensures value { IfOk result (λ v. view v ≡ abort_data (names_of threads.now) (abort (map declaration decls.now) line.now)) }
    ensures short { IfOk result (λ _. IsShortAbort (names_of threads.now) (abort (map declaration decls.now) line.now)) }
{
    let AbortLine {
        thread,
        position,
        at,
        replies,
        cause,
    } = line;
    let (position, at) = (*position, *at);
    let saw = replies_value(alloc, replies.as_slice())?;
    let name = thread_name(threads, *thread);
    match *cause {
        Cause::Locked { home } => {
            let object = object_name(decls, home.object);
            locked_value(alloc, at, object, home.local, position, saw, name)
        }
        Cause::Changed { home, by } => {
            let object = object_name(decls, home.object);
            changed_value(alloc, at, by, object, home.local, position, saw, name)
        }
    }
}

fn abort_values(
    alloc: Global,
    threads: &[Thread],
    decls: &[Decl],
    lines: &[AbortLine],
) -> Result<Value, AllocError>
    requires names { HaveNames (map declaration decls.now) }
    requires known { AreAbortsOf (length threads.now) (map declaration decls.now) lines.now }
    ensures value { IfOk result (λ v. view v ≡ listed (abort_data (names_of threads.now))
        (map (abort (map declaration decls.now)) lines.now)) }
    ensures short { IfOk result (λ _. All (λ l. IsShortAbort (names_of threads.now) (abort (map declaration decls.now) l)) lines.now) }
{
    let mut items = Vec::new(alloc);
    for line in lines {
        items.push(abort_value(alloc, threads, decls, line)?)?;
    }
    Ok(Value::Array(items))
}

fn object_value(alloc: Global, decl: &Decl, state: &State) -> Result<Value, AllocError>
    requires { decl.now.number < length state.now.items }
    ensures { IfOk result (λ v. view v ≡ object_data state.now.items (declaration decl.now)) }
{
    let mut text = String::new(alloc);
    push_rows(&mut text, decl.shape, state.get(decl.number))?;
    let name = decl.name.as_str();
    json!(in alloc; {"name": name, "text": text})
}

fn object_values(alloc: Global, decls: &[Decl], state: &State) -> Result<Value, AllocError>
    requires { HaveRows state.now.items decls.now }
    ensures { IfOk result (λ v. view v ≡ listed (object_data state.now.items) (map declaration decls.now)) }
{
    let mut items = Vec::new(alloc);
    for decl in decls {
        items.push(object_value(alloc, decl, state)?)?;
    }
    Ok(Value::Array(items))
}

fn report_value(alloc: Global, file: &File, journal: &Journal) -> Result<Value, AllocError>
    requires names { HaveNames (map declaration file.now.decls.items) }
    requires lines { HaveThreads (length file.now.threads.items) journal.now.lines.items }
    requires aborts { AreAbortsOf (length file.now.threads.items) (map declaration file.now.decls.items) journal.now.aborts.items }
    requires rows { HaveRows journal.now.state.items file.now.decls.items }
    ensures value { IfOk result (λ v. view v ≡ report_data (names_of file.now.threads.items) (map declaration file.now.decls.items)
        (map entry journal.now.lines.items) (map (abort (map declaration file.now.decls.items)) journal.now.aborts.items)
        journal.now.state.items) }
    ensures entries { IfOk result (λ _. All (λ l. IsShortEntry (names_of file.now.threads.items) (entry l)) journal.now.lines.items) }
    ensures aborts { IfOk result (λ _. All (λ l. IsShortAbort (names_of file.now.threads.items)
        (abort (map declaration file.now.decls.items) l)) journal.now.aborts.items) }
{
    let (threads, decls) = (file.threads.as_slice(), file.decls.as_slice());
    let aborts = abort_values(alloc, threads, decls, journal.aborts.as_slice())?;
    let entries = entry_values(alloc, threads, journal.lines.as_slice())?;
    let state = object_values(alloc, decls, &journal.state)?;
    json!(in alloc; {"aborts": aborts, "journal": entries, "state": state})
}

fn json_line(alloc: Global, file: &File, journal: &Journal) -> Result<String, AllocError>
    requires names { HaveNames (map declaration file.now.decls.items) }
    requires lines { HaveThreads (length file.now.threads.items) journal.now.lines.items }
    requires aborts { AreAbortsOf (length file.now.threads.items) (map declaration file.now.decls.items) journal.now.aborts.items }
    requires rows { HaveRows journal.now.state.items file.now.decls.items }
    ensures text { IfOk result (λ s. string_bytes s ≡ json_text (names_of file.now.threads.items) (map declaration file.now.decls.items)
        (map entry journal.now.lines.items) (map (abort (map declaration file.now.decls.items)) journal.now.aborts.items)
        journal.now.state.items) }
    ensures entries { IfOk result (λ _. All (λ l. IsShortEntry (names_of file.now.threads.items) (entry l)) journal.now.lines.items) }
    ensures aborts { IfOk result (λ _. All (λ l. IsShortAbort (names_of file.now.threads.items)
        (abort (map declaration file.now.decls.items) l)) journal.now.aborts.items) }
{
    let value = report_value(alloc, file, journal)?;
    let mut line = value.to_string(alloc)?;
    line.push_str("\n")?;
    Ok(line)
}

/// A journal of the file as one line: the object with its aborted attempts, its lines and the rows that it left, compact
/// and with keys in rising order, and a line feed. It names the same order and the same aborted attempts as the text.
pub fn json_report(alloc: Global, file: &File, journal: &Journal) -> Result<Text, NoMemory>
    requires names { HaveNames (map declaration file.now.decls.items) }
    requires threads { AreNames (names_of file.now.threads.items) }
    requires lines { HaveThreads (length file.now.threads.items) journal.now.lines.items }
    requires aborts { AreAbortsOf (length file.now.threads.items) (map declaration file.now.decls.items) journal.now.aborts.items }
    requires rows { HaveRows journal.now.state.items file.now.decls.items }
    ensures text { IfOk result (λ text. text.items ≡ json_text (names_of file.now.threads.items) (map declaration file.now.decls.items)
        (map entry journal.now.lines.items) (map (abort (map declaration file.now.decls.items)) journal.now.aborts.items)
        journal.now.state.items) }
    ensures order { IfOk result (λ text. json_order_named (names_of file.now.threads.items) text.items ≡ places journal.now.lines.items) }
    ensures aborts { IfOk result (λ text. json_aborts_named (names_of file.now.threads.items) text.items
        ≡ map (abort (map declaration file.now.decls.items)) journal.now.aborts.items) }
{
    match json_line(alloc, file, journal) {
        Ok(line) => Text::of_string(line),
        Err(AllocError) => Err(NoMemory),
    }
}
