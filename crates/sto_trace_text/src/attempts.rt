//! The attempts that the threads of a run make, as its steps begin them and lead them on.
ghost use Rattle.std.specs.Prelude.{◌≡◌, ◌∷◌, ◌++◌, ◌<◌, ◌^◌, [], ℕ, List, length, map, Option, IfOk, OnOk, option_copied};
ghost use Rattle.std.specs.Option.{option_map};
ghost use Rattle.sto_model.specs.PlainReplies.{plain_reply};
ghost use Rattle.sto_lang.specs.Sound.{IsSound};
ghost use Rattle.sto_lang.specs.Views.{file as view, script};
ghost use Rattle.sto_report_spec.specs.Orders.{at_position, transaction_at};
ghost use Rattle.sto_trace.specs.declared.Step.{Step};
ghost use Rattle.sto_trace_text.specs.Bodies.{IsBodyOf, AreBodiesAfter, HearsReply, HearsReplies, GoesThrough, GoThrough, answer_of};
ghost use Rattle.sto_trace_text.specs.Events.{begun};

use std::alloc::Global;
use sto_lang::{File, Script};
use sto_model::{Body, Call, Next, Reply};
use sto_part::{List, NoMemory};
use sto_script::ScriptBody;
use sto_trace::{Deed, Step};

/// A reply, and the call that it answers, where the transaction asks one.
#[derive(Clone, Copy)]
pub(crate) struct Answer<'s> {
    pub(crate) call: Option<Call>,
    pub(crate) reply: &'s Reply,
}

/// For each thread of a file the attempt that it makes, as the body of its transaction; none before its first start.
pub(crate) type Attempts<'f> = List<Option<ScriptBody<'f>>>;

/// The threads before the first step.
pub(crate) fn no_attempts(alloc: Global, file: &File) -> Result<Attempts<'_>, NoMemory>
    ensures { IfOk result (λ attempts. AreBodiesAfter (view file.now) [] attempts.items) }
{
    let mut attempts = List::new(alloc);
    for _thread in file.threads.as_slice() {
        attempts.push(None)?;
    }
    Ok(attempts)
}

// The transaction at a position of a thread, where it has one.
fn at_position(scripts: &[Script], position: u32) -> Option<&Script>
    ensures { option_map script (option_copied result) ≡ at_position position (map script scripts.now) }
{
    if position == 0 {
        return None;
    }
    scripts.get((position - 1) as usize)
}

// The transaction at a place of a file, where it has one.
fn transaction_at(file: &File, thread: u32, position: u32) -> Option<&Script>
    ensures { option_map script (option_copied result) ≡ transaction_at (view file.now) (thread, position) }
{
    match file.threads.as_slice().get(thread as usize) {
        Some(thread) => at_position(thread.scripts.as_slice(), position),
        None => None,
    }
}

// An attempt of the transaction at a place of a file, where it has one.
fn begin(
    alloc: Global,
    file: &File,
    thread: u32,
    position: u32,
) -> Result<Option<ScriptBody<'_>>, NoMemory>
    requires { IsSound (view file.now) }
    ensures { IfOk result (λ body. IsBodyOf body (option_map begun (transaction_at (view file.now) (thread, position)))) }
{
    match transaction_at(file, thread, position) {
        Some(script) => Ok(Some(ScriptBody::new(alloc, script)?)),
        None => Ok(None),
    }
}

// The call that an attempt asks next. It hears this reply.
fn asked(attempt: &mut Option<ScriptBody<'_>>, reply: &Reply) -> Option<Call>
    ensures { HearsReply (plain_reply reply.now) attempt.old result attempt.new }
{
    let body = attempt.as_mut()?;
    match body.next() {
        Next::Ask(call) => {
            body.hear(reply);
            Some(call)
        }
        Next::Commit | Next::Cancel => None,
    }
}

// The replies with the calls that they answer. The attempt hears them.
fn answered<'s>(
    alloc: Global,
    attempt: &mut Option<ScriptBody<'_>>,
    replies: &'s [Reply],
) -> Result<List<Answer<'s>>, NoMemory>
    requires { length replies.now < 2 ^ 32 }
    ensures { IfOk result (λ answers. HearsReplies (map plain_reply replies.now) attempt.old (map answer_of answers.items) attempt.new) }
{
    let mut answers = List::new(alloc);
    for reply in replies {
        let call = asked(attempt, reply);
        answers.push(Answer { call, reply })?;
    }
    Ok(answers)
}

// The replies of a step with the calls that they answer. The attempt of its thread is the one after it.
fn answered_with<'f, 's>(
    alloc: Global,
    file: &'f File,
    attempt: &mut Option<ScriptBody<'f>>,
    step: &'s Step,
) -> Result<List<Answer<'s>>, NoMemory>
    requires { IsSound (view file.now) }
    ensures { IfOk result (λ answers. GoesThrough (view file.now) step.now attempt.old (map answer_of answers.items) attempt.new) }
{
    if let Deed::Start { .. } = step.deed {
        *attempt = begin(alloc, file, step.thread, step.position)?;
    }
    answered(alloc, attempt, step.replies.as_slice())
}

/// The replies of a step with the calls that they answer. The attempts are those after it.
pub(crate) fn answers<'f, 's>(
    alloc: Global,
    file: &'f File,
    attempts: &mut Attempts<'f>,
    step: &'s Step,
) -> Result<List<Answer<'s>>, NoMemory>
    requires sound { IsSound (view file.now) }
    ensures { IfOk result (λ answers. GoThrough (view file.now) step.now attempts.old.items (map answer_of answers.items) attempts.new.items) }
{
    if step.thread < attempts.len() {
        answered_with(alloc, file, attempts.get_mut(step.thread), step)
    } else {
        answered_with(alloc, file, &mut None, step)
    }
}
