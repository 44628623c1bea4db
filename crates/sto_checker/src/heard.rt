//! What an aborted attempt heard.
ghost use Rattle.std.specs.Prelude.{◌≡◌, ◌↔◌, ◌≤◌, ◌<◌, length, map, take, IfOk, IsTrue, MatchOption};
ghost use Rattle.sto_model.specs.PlainReplies.{plain_reply};
ghost use Rattle.sto_model.specs.Objects.{machines_of};
ghost use Rattle.sto_model.specs.Serial.{serial_run_of};
ghost use Rattle.sto_lang.specs.Objects.{HaveNames, shapes_of};
ghost use Rattle.sto_lang.specs.Sizes.{calls_of};
ghost use Rattle.sto_lang.specs.Sound.{IsSound};
ghost use Rattle.sto_lang.specs.Views.{file as view, script as script_view, declaration, names_of};
ghost use Rattle.sto_script.specs.Meaning.{meaning_of};
ghost use Rattle.sto_report_spec.specs.Report.{abort_text};
ghost use Rattle.sto_report_spec.specs.Short.{IsShortAbort};
ghost use Rattle.sto_journal.specs.Journals.{abort, IsAbortOf};
ghost use Rattle.sto_checker.specs.Heard.{AreHeard};
ghost use Rattle.sto_checker.specs.Runnable.{CanRun};
ghost use Rattle.sto_checker.specs.Given.{TellsCause, IsPlaced, MayBeAborted, IsHeard};

use crate::abort::GivenAbort;
use crate::open_replies::replies_of;
use crate::walk::{has_asked, is_unsettled};
use std::alloc::{AllocError, Global};
use sto_journal::{AbortLine, Cause, push_abort};
use sto_lang::{File, Script};
use sto_model::{Replies, Reply, Shapes, State};
use sto_part::NoMemory;
use sto_script::ScriptBody;
use sto_type::Home;

// The first so many replies that a transaction hears from a state; none where it hears fewer.
fn first_replies(
    alloc: Global,
    script: &Script,
    shapes: &Shapes,
    state: &mut State,
    count: u32,
) -> Result<Option<Replies>, NoMemory>
    requires fits { CanRun shapes.now.items (script_view script.now) }
    requires objects { length state.old.items ≡ length shapes.now.items }
    ensures replies { IfOk result (λ first. let heard = (serial_run_of (machines_of shapes.now.items) script.now.weight
        (meaning_of (script_view script.now)) state.old.items).replies in MatchOption first (length heard < count)
        (λ replies. (count ≤ length heard) × (map plain_reply replies.items ≡ take count heard))) }
    ensures state { state.new ≡ state.old }
{
    let body = ScriptBody::new(alloc, script)?;
    let mut replies = replies_of(alloc, body, shapes, state)?;
    if replies.len() < count {
        return Ok(None);
    }
    while replies.len() > count {
        replies.pop();
    }
    Ok(Some(replies))
}

// Whether an attempt of a transaction that heard these replies may have been aborted, for a part of an object.
fn may_be_aborted(
    alloc: Global,
    script: &Script,
    replies: &[Reply],
    object: u32,
) -> Result<bool, NoMemory>
    requires weighed { calls_of script.now.body ≤ script.now.weight }
    requires heard { AreHeard (meaning_of (script_view script.now)) (map plain_reply replies.now) }
    ensures { IfOk result (λ yes. IsTrue yes ↔ MayBeAborted object (meaning_of (script_view script.now)) (map plain_reply replies.now)) }
{
    let mut body = ScriptBody::new(alloc, script)?;
    Ok(is_unsettled(&mut body, replies) && has_asked(&mut body, replies, object))
}

// Whether bytes are the text of an abort line.
fn is_abort(alloc: Global, file: &File, line: &AbortLine, bytes: &[u8]) -> Result<bool, NoMemory>
    requires names { HaveNames (map declaration file.now.decls.items) }
    requires known { IsAbortOf (length file.now.threads.items) (map declaration file.now.decls.items) line.now }
    ensures text { IfOk result (λ yes. IsTrue yes ↔ (bytes.now
        ≡ abort_text (names_of file.now.threads.items) (abort (map declaration file.now.decls.items) line.now))) }
    ensures short { IfOk result (λ _. IsShortAbort (names_of file.now.threads.items)
        (abort (map declaration file.now.decls.items) line.now)) }
{
    let mut text = String::new(alloc);
    match push_abort(
        &mut text,
        file.threads.as_slice(),
        file.decls.as_slice(),
        line,
    ) {
        Ok(()) => Ok(text.as_bytes() == bytes),
        Err(AllocError) => Err(NoMemory),
    }
}

// The cause that an abort line tells, by the number of its object.
fn cause_of(given: &GivenAbort<'_>, object: u32) -> Cause
    ensures { TellsCause given.now.told.cause.part object given.now.told.cause.by result }
{
    let home = Home {
        object,
        local: given.told.cause.part,
    };
    match given.told.cause.by {
        None => Cause::Locked { home },
        Some(by) => Cause::Changed { home, by },
    }
}

/// Whether the replies of an abort line are those that its transaction hears first from a state, and the attempt may have been
/// aborted there: it asked the object, and it was not at its end. The state stays as it is.
pub(crate) fn is_heard(
    alloc: Global,
    file: &File,
    shapes: &Shapes,
    state: &mut State,
    given: &GivenAbort<'_>,
) -> Result<bool, NoMemory>
    requires sound { IsSound (view file.now) }
    requires shapes { shapes.now.items ≡ shapes_of (view file.now).declarations }
    requires objects { length state.old.items ≡ length shapes.now.items }
    requires placed { IsPlaced (view file.now) given.now }
    ensures heard { IfOk result (λ yes. IsTrue yes ↔ IsHeard (view file.now) state.old.items given.now) }
    ensures state { state.new ≡ state.old }
{
    let at = given.told.place;
    let object = file.decls.get(given.object).number;
    let script = file.threads.get(at.thread).scripts.get(at.position - 1);
    let Some(replies) = first_replies(alloc, script, shapes, state, given.told.heard)? else {
        return Ok(false);
    };
    if !may_be_aborted(alloc, script, replies.as_slice(), object)? {
        return Ok(false);
    }
    let line = AbortLine {
        thread: at.thread,
        position: at.position,
        at: given.told.seen,
        replies,
        cause: cause_of(given, object),
    };
    is_abort(alloc, file, &line, given.text)
}
