//! Calls asked of a type, each in a transaction of its own.
ghost use Rattle.std.specs.Prelude.{IfOk};

use crate::trees::once::Once;
use std::alloc::{AllocError, Global};
use sto_model::{Call, Reply};
use sto_part::{Contents, NoMemory};
use sto_test_alone::{Ran, run_alone};
use sto_type::TxType;

/// What a call was answered, and how much it took.
#[derive(Drop)]
pub(crate) struct Answer {
    pub(crate) reply: Reply,
    /// How many items it noted.
    pub(crate) observed: u32,
    /// How many parts it updated.
    pub(crate) updated: u32,
}

impl Answer {
    fn of(ran: Ran) -> Option<Answer> {
        let mut replies = ran.outcome.replies;
        Some(Answer {
            reply: replies.pop()?,
            observed: ran.items.len(),
            updated: ran.updates.len(),
        })
    }
}

/// What the call is answered, which the type is to take; the contents become those after it.
pub(crate) fn ask<T: TxType>(
    alloc: Global,
    ty: &T,
    call: &Call,
    contents: &mut Contents,
) -> Result<Option<Answer>, AllocError>
    requires { (T.meaning ty.now).valid contents.old.items }
    ensures { (T.meaning ty.now).valid contents.new.items }
{
    if !ty.takes(call) || contents.parts() == u32::MAX {
        return Ok(None);
    }
    match run_alone(alloc, ty, &mut Once::new(call), contents) {
        Ok(ran) => Ok(Answer::of(ran)),
        Err(NoMemory) => Err(AllocError),
    }
}

/// What calls are answered from the opening on.
pub(crate) fn answers_of<T: TxType>(
    alloc: Global,
    ty: &T,
    calls: &[Call],
) -> Result<Vec<Answer>, AllocError> {
    let mut contents = opening_of(alloc, ty)?;
    let mut answers = Vec::new(alloc);
    for call in calls {
        if let Some(answer) = ask(alloc, ty, call, &mut contents)? {
            answers.push(answer)?;
        }
    }
    Ok(answers)
}

/// The contents that a type opens with.
pub(crate) fn opening_of<T: TxType>(alloc: Global, ty: &T) -> Result<Contents, AllocError>
    ensures { IfOk result (λ c. (T.meaning ty.now).valid c.items) }
{
    ty.opening(alloc).map_err(no_memory)
}

/// The error of std.
pub(crate) fn no_memory(_: NoMemory) -> AllocError {
    AllocError
}
