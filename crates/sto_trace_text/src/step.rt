//! The lines of events.
ghost use Rattle.std.specs.Prelude.{◌≡◌, ◌++◌, OnOk, IfOk, Some, map, string_bytes};
ghost use Rattle.std.specs.List.{flat_map};
ghost use Rattle.sto_lang.specs.Sound.{IsSound};
ghost use Rattle.sto_lang.specs.Views.{declaration, file as view};
ghost use Rattle.sto_trace_text.specs.Bodies.{answer_of, event_with};
ghost use Rattle.sto_trace_text.specs.Lines.{AddsLine};
ghost use Rattle.sto_trace_text.specs.Named.{named};
ghost use Rattle.sto_trace_text.specs.Texts.{answer_text, asked_text, end_text, event_text, trace_text, verdict_text};

use crate::attempts::{Answer, Attempts, answers, no_attempts};
use crate::deed::push_deed;
use crate::names::{Names, push_part, thread_name};
use std::alloc::{AllocError, Global};
use std::fmt::Write;
use sto_attempt_log::Verdict;
use sto_journal::push_reply;
use sto_lang::Decl;
use sto_model::Call;
use sto_part::NoMemory;
use sto_trace::Step;
use sto_write::call_text;

// Adds the call that a reply answers, where there is one.
fn push_asked(
    alloc: Global,
    out: &mut String,
    decls: &[Decl],
    call: Option<Call>,
) -> Result<(), AllocError>
    ensures { OnOk result (string_bytes out.new ≡ string_bytes out.old ++ asked_text (map declaration decls.now) call) }
{
    let Some(call) = call else {
        return Ok(());
    };
    match call_text(alloc, decls, call) {
        Ok(text) => {
            out.push_str(text.as_str())?;
            out.push_str(" ")
        }
        Err(NoMemory) => Err(AllocError),
    }
}

// Adds a reply behind its call.
fn push_answer(
    alloc: Global,
    out: &mut String,
    names: &Names<'_>,
    answer: &Answer<'_>,
) -> Result<(), AllocError>
    ensures { OnOk result (string_bytes out.new ≡ string_bytes out.old ++ answer_text (named names.now) (answer_of answer.now)) }
{
    out.push_str("; ")?;
    push_asked(alloc, out, names.file.decls.as_slice(), answer.call)?;
    out.push_str("heard ")?;
    push_reply(out, answer.reply)
}

// Adds replies, each behind its call.
fn push_answers(
    alloc: Global,
    out: &mut String,
    names: &Names<'_>,
    answers: &[Answer<'_>],
) -> Result<(), AllocError>
    ensures { OnOk result (string_bytes out.new ≡ string_bytes out.old
        ++ flat_map (answer_text (named names.now)) (map answer_of answers.now)) }
{
    for answer in answers {
        push_answer(alloc, out, names, answer)?;
    }
    Ok(())
}

// Adds how an attempt ended, and why.
fn push_verdict(out: &mut String, names: &Names<'_>, verdict: Verdict) -> Result<(), AllocError>
    ensures { OnOk result (string_bytes out.new ≡ string_bytes out.old ++ verdict_text (named names.now) verdict) }
{
    match verdict {
        Verdict::Wrote { ticket } => write!(out, "; commit {ticket}"),
        Verdict::Read { at } => write!(out, "; read at {at}"),
        Verdict::Cancelled { at } => write!(out, "; cancel at {at}"),
        Verdict::Locked { at, part } => {
            write!(out, "; abort at {at} locked ")?;
            push_part(out, names, part)
        }
        Verdict::Changed { at, part, ticket } => {
            write!(out, "; abort at {at} changed ")?;
            push_part(out, names, part)?;
            write!(out, " by ticket {ticket}")
        }
    }
}

// Adds how the attempt ended, if it did.
fn push_end(out: &mut String, names: &Names<'_>, end: Option<Verdict>) -> Result<(), AllocError>
    ensures { OnOk result (string_bytes out.new ≡ string_bytes out.old ++ end_text (named names.now) end) }
{
    match end {
        Some(verdict) => push_verdict(out, names, verdict),
        None => Ok(()),
    }
}

// Adds the line of an event, by its number, its step and its answers.
fn push_event(
    alloc: Global,
    out: &mut String,
    names: &Names<'_>,
    number: usize,
    step: &Step,
    answers: &[Answer<'_>],
) -> Result<(), AllocError>
    ensures { OnOk result (string_bytes out.new ≡ string_bytes out.old
        ++ event_text (named names.now) (event_with number step.now answers.now)) }
{
    let name = thread_name(names.file.threads.as_slice(), step.thread);
    let position = step.position;
    write!(out, "{number} {name}.{position} ")?;
    push_deed(out, names, step.deed)?;
    push_answers(alloc, out, names, answers)?;
    push_end(out, names, step.end)?;
    out.push_str("\n")
}

// Adds the line of the event that is a step of its thread's attempt.
fn push_step<'f>(
    alloc: Global,
    out: &mut String,
    names: &Names<'f>,
    attempts: &mut Attempts<'f>,
    number: usize,
    step: &Step,
) -> Result<(), NoMemory>
    requires { IsSound (view names.now.file.now) }
    ensures { OnOk result (AddsLine (event_text (named names.now)) (named names.now).file step.now number attempts.old.items
        (string_bytes out.old) attempts.new.items (string_bytes out.new)) }
{
    let answers = answers(alloc, names.file, attempts, step)?;
    match push_event(alloc, out, names, number, step, answers.as_slice()) {
        Ok(()) => Ok(()),
        Err(AllocError) => Err(NoMemory),
    }
}

/// The text of a trace: a line for each of its events, with its number, the transaction, what it did and found, the calls that it
/// completed with their replies, and how the attempt ended with it, if it did.
pub fn trace_text(alloc: Global, names: &Names<'_>, steps: &[Step]) -> Result<String, NoMemory>
    requires { IsSound (view names.now.file.now) }
    ensures { IfOk result (λ text. string_bytes text ≡ trace_text (named names.now) steps.now) }
{
    let mut out = String::new(alloc);
    let mut attempts = no_attempts(alloc, names.file)?;
    for (place, step) in steps.iter().enumerate() {
        push_step(alloc, &mut out, names, &mut attempts, place + 1, step)?;
    }
    Ok(out)
}
