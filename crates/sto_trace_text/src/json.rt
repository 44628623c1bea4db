//! The JSON of a trace.
ghost use Rattle.std.specs.Prelude.{◌≡◌, ◌++◌, map, IfOk, OnOk, string_bytes};
ghost use Rattle.serde_json.specs.View.{view};
ghost use Rattle.sto_lang.specs.Sound.{IsSound};
ghost use Rattle.sto_lang.specs.Views.{declaration, file as file_of};
ghost use Rattle.sto_report_spec.specs.Json.{listed, reply_data};
ghost use Rattle.sto_model.specs.PlainReplies.{plain_reply};
ghost use Rattle.sto_trace_text.specs.Bodies.{answer_of, event_with};
ghost use Rattle.sto_trace_text.specs.Json.{answer_data, call_data, changed_data, clock_data, deed_data, end_data, ended_data, event_data, json_line, locked_data, part_data, trace_json, version_data, word_data};
ghost use Rattle.sto_trace_text.specs.Lines.{AddsLine};
ghost use Rattle.sto_trace_text.specs.Named.{named};

use crate::attempts::{Answer, Attempts, answers, no_attempts};
use crate::names::{NamedPart, Names, named_part, thread_name};
use serde_json::{Value, json};
use std::alloc::{AllocError, Global};
use sto_attempt_log::Verdict;
use sto_journal::push_reply;
use sto_lang::Decl;
use sto_model::{Call, Reply};
use sto_part::NoMemory;
use sto_trace::{Deed, Step};
use sto_version::Version;
use sto_write::call_text;

fn clock_value(alloc: Global, name: &str, clock: u64) -> Result<Value, AllocError>
    ensures { IfOk result (λ v. view v ≡ clock_data name.now clock) }
{
    json!(in alloc; {"clock": clock, "name": name})
}

fn version_value(
    alloc: Global,
    names: &Names<'_>,
    name: &str,
    part: u32,
    version: Version,
) -> Result<Value, AllocError>
    ensures { IfOk result (λ v. view v ≡ version_data (named names.now) name.now part version) }
{
    let (locked, ticket) = (version.is_locked(), version.ticket());
    let NamedPart { object, part } = named_part(names, part);
    json!(in alloc; {"locked": locked, "name": name, "object": object, "part": part, "ticket": ticket})
}

fn word_value(
    alloc: Global,
    names: &Names<'_>,
    name: &str,
    part: u32,
    word: u32,
    value: i64,
) -> Result<Value, AllocError>
    ensures { IfOk result (λ v. view v ≡ word_data (named names.now) name.now part word value) }
{
    let text = format!(in alloc; "{value}")?;
    let NamedPart { object, part } = named_part(names, part);
    json!(in alloc; {"name": name, "object": object, "part": part, "value": text, "word": word})
}

fn part_value(alloc: Global, names: &Names<'_>, name: &str, part: u32) -> Result<Value, AllocError>
    ensures { IfOk result (λ v. view v ≡ part_data (named names.now) name.now part) }
{
    let NamedPart { object, part } = named_part(names, part);
    json!(in alloc; {"name": name, "object": object, "part": part})
}

// What an event did, and what it found.
fn deed_value(alloc: Global, names: &Names<'_>, deed: Deed) -> Result<Value, AllocError>
    ensures { IfOk result (λ v. view v ≡ deed_data (named names.now) deed) }
{
    match deed {
        Deed::Start { clock } => clock_value(alloc, "start", clock),
        Deed::Renew { clock } => clock_value(alloc, "renew", clock),
        Deed::Open { part, version } => version_value(alloc, names, "open", part, version),
        Deed::Word { part, word, value } => word_value(alloc, names, "word", part, word, value),
        Deed::Close { part, version } => version_value(alloc, names, "close", part, version),
        Deed::Recheck { part, version } => version_value(alloc, names, "recheck", part, version),
        Deed::Lock { part, version } => version_value(alloc, names, "lock", part, version),
        Deed::Test { part, version } => version_value(alloc, names, "test", part, version),
        Deed::Draw { ticket } => json!(in alloc; {"name": "draw", "ticket": ticket}),
        Deed::Check { part, version } => version_value(alloc, names, "check", part, version),
        Deed::Decide { commit } => json!(in alloc; {"commit": commit, "name": "decide"}),
        Deed::Put { part, word, value } => word_value(alloc, names, "put", part, word, value),
        Deed::Release { part } => part_value(alloc, names, "release", part),
        Deed::Unlock { part } => part_value(alloc, names, "unlock", part),
    }
}

// The call that a reply answers, where there is one.
fn call_value(alloc: Global, decls: &[Decl], call: Option<Call>) -> Result<Value, AllocError>
    ensures { IfOk result (λ v. view v ≡ call_data (map declaration decls.now) call) }
{
    let Some(call) = call else {
        return Ok(Value::Null);
    };
    match call_text(alloc, decls, call) {
        Ok(text) => Ok(Value::String(String::from_str(alloc, text.as_str())?)),
        Err(NoMemory) => Err(AllocError),
    }
}

fn reply_value(alloc: Global, reply: &Reply) -> Result<Value, AllocError>
    ensures { IfOk result (λ v. view v ≡ reply_data (plain_reply reply.now)) }
{
    let mut text = String::new(alloc);
    push_reply(&mut text, reply)?;
    Ok(Value::String(text))
}

// A reply with its call.
fn answer_value(alloc: Global, names: &Names<'_>, answer: &Answer<'_>) -> Result<Value, AllocError>
    ensures { IfOk result (λ v. view v ≡ answer_data (named names.now) (answer_of answer.now)) }
{
    let call = call_value(alloc, names.file.decls.as_slice(), answer.call)?;
    let reply = reply_value(alloc, answer.reply)?;
    json!(in alloc; {"call": call, "reply": reply})
}

fn answer_values(
    alloc: Global,
    names: &Names<'_>,
    answers: &[Answer<'_>],
) -> Result<Value, AllocError>
    ensures { IfOk result (λ v. view v ≡ listed (answer_data (named names.now)) (map answer_of answers.now)) }
{
    let mut items = Vec::new(alloc);
    for answer in answers {
        items.push(answer_value(alloc, names, answer)?)?;
    }
    Ok(Value::Array(items))
}

// How an attempt ended that read as of a number.
fn ended_value(alloc: Global, at: u64, end: &str) -> Result<Value, AllocError>
    ensures { IfOk result (λ v. view v ≡ ended_data at end.now) }
{
    json!(in alloc; {"at": at, "end": end})
}

fn locked_value(alloc: Global, names: &Names<'_>, at: u64, part: u32) -> Result<Value, AllocError>
    ensures { IfOk result (λ v. view v ≡ locked_data (named names.now) at part) }
{
    let NamedPart { object, part } = named_part(names, part);
    json!(in alloc; {"at": at, "cause": "locked", "end": "abort", "object": object, "part": part})
}

fn changed_value(
    alloc: Global,
    names: &Names<'_>,
    at: u64,
    part: u32,
    ticket: u64,
) -> Result<Value, AllocError>
    ensures { IfOk result (λ v. view v ≡ changed_data (named names.now) at part ticket) }
{
    let NamedPart { object, part } = named_part(names, part);
    json!(in alloc; {"at": at, "cause": "changed", "end": "abort", "object": object, "part": part, "ticket": ticket})
}

// How the attempt ended, if it did, and why.
fn end_value(alloc: Global, names: &Names<'_>, end: Option<Verdict>) -> Result<Value, AllocError>
    ensures { IfOk result (λ v. view v ≡ end_data (named names.now) end) }
{
    let Some(verdict) = end else {
        return Ok(Value::Null);
    };
    match verdict {
        Verdict::Wrote { ticket } => json!(in alloc; {"end": "commit", "ticket": ticket}),
        Verdict::Read { at } => ended_value(alloc, at, "read"),
        Verdict::Cancelled { at } => ended_value(alloc, at, "cancel"),
        Verdict::Locked { at, part } => locked_value(alloc, names, at, part),
        Verdict::Changed { at, part, ticket } => changed_value(alloc, names, at, part, ticket),
    }
}

// An event, by its number, its step and its answers.
fn event_value(
    alloc: Global,
    names: &Names<'_>,
    number: usize,
    step: &Step,
    answers: &[Answer<'_>],
) -> Result<Value, AllocError>
    ensures { IfOk result (λ v. view v ≡ event_data (named names.now) (event_with number step.now answers.now)) }
{
    let attempt = end_value(alloc, names, step.end)?;
    let calls = answer_values(alloc, names, answers)?;
    let event = deed_value(alloc, names, step.deed)?;
    let position = step.position;
    let thread = thread_name(names.file.threads.as_slice(), step.thread);
    json!(in alloc; {"attempt": attempt, "calls": calls, "event": event, "number": number, "position": position, "thread": thread})
}

// The line of an event, by its number, its step and its answers.
fn line_of(
    alloc: Global,
    names: &Names<'_>,
    number: usize,
    step: &Step,
    answers: &[Answer<'_>],
) -> Result<String, AllocError>
    ensures { IfOk result (λ line. string_bytes line ≡ json_line (named names.now) (event_with number step.now answers.now)) }
{
    let value = event_value(alloc, names, number, step, answers)?;
    let mut line = value.to_string(alloc)?;
    line.push_str("\n")?;
    Ok(line)
}

// Adds the line of an event.
fn push_event(
    alloc: Global,
    out: &mut String,
    names: &Names<'_>,
    number: usize,
    step: &Step,
    answers: &[Answer<'_>],
) -> Result<(), AllocError>
    ensures { OnOk result (string_bytes out.new ≡ string_bytes out.old
        ++ json_line (named names.now) (event_with number step.now answers.now)) }
{
    let line = line_of(alloc, names, number, step, answers)?;
    out.push_str(line.as_str())
}

// Adds the line of the event that is a step of its thread's attempt.
fn push_step<'f>(
    alloc: Global,
    out: &mut String,
    names: &Names<'f>,
    attempts: &mut Attempts<'f>,
    number: usize,
    step: &Step,
) -> Result<(), NoMemory>
    requires { IsSound (file_of names.now.file.now) }
    ensures { OnOk result (AddsLine (json_line (named names.now)) (named names.now).file step.now number attempts.old.items
        (string_bytes out.old) attempts.new.items (string_bytes out.new)) }
{
    let answers = answers(alloc, names.file, attempts, step)?;
    match push_event(alloc, out, names, number, step, answers.as_slice()) {
        Ok(()) => Ok(()),
        Err(AllocError) => Err(NoMemory),
    }
}

/// A trace as JSON: a line for each of its events, an object without spaces, its keys in rising order, that says what the line of
/// `trace_text` says.
pub fn trace_json(alloc: Global, names: &Names<'_>, steps: &[Step]) -> Result<String, NoMemory>
    requires { IsSound (file_of names.now.file.now) }
    ensures { IfOk result (λ text. string_bytes text ≡ trace_json (named names.now) steps.now) }
{
    let mut out = String::new(alloc);
    let mut attempts = no_attempts(alloc, names.file)?;
    for (place, step) in steps.iter().enumerate() {
        push_step(alloc, &mut out, names, &mut attempts, place + 1, step)?;
    }
    Ok(out)
}
