//! Calls asked of a type, each in a transaction of its own.
ghost use Rattle.std.specs.Prelude.{IfOk};

use crate::once::Once;
use std::alloc::{AllocError, Global};
use sto_item::{Items, Updates};
use sto_model::{Call, Operation, Reply};
use sto_part::{Contents, NoMemory};
use sto_test_alone::{Ran, run_alone};
use sto_type::TxType;

/// What a call was answered, what it observed and what it wrote.
#[derive(Drop)]
pub(crate) struct Answer {
    pub(crate) reply: Reply,
    pub(crate) items: Items,
    pub(crate) updates: Updates,
}

impl Answer {
    fn of(ran: Ran) -> Option<Answer> {
        let mut replies = ran.outcome.replies;
        Some(Answer {
            reply: replies.pop()?,
            items: ran.items,
            updates: ran.updates,
        })
    }
}

/// A call of the one object.
pub(crate) fn call(operation: Operation, a: i64, b: i64) -> Call {
    Call::new(0, operation, a, b)
}

/// What the call is answered, where the type takes it; the contents become those after it.
pub(crate) fn ask<T: TxType>(
    alloc: Global,
    ty: &T,
    call: &Call,
    contents: &mut Contents,
) -> Result<Option<Answer>, AllocError>
    requires { (T.meaning ty.now).valid contents.old.items }
    ensures { (T.meaning ty.now).valid contents.new.items }
{
    if !ty.takes(call) || contents.parts() == u32::MAX {
        return Ok(None);
    }
    match run_alone(alloc, ty, &mut Once::new(call), contents) {
        Ok(ran) => Ok(Answer::of(ran)),
        Err(NoMemory) => Err(AllocError),
    }
}

/// The contents that a type opens with.
pub(crate) fn opening_of<T: TxType>(alloc: Global, ty: &T) -> Result<Contents, AllocError>
    ensures { IfOk result (λ c. (T.meaning ty.now).valid c.items) }
{
    ty.opening(alloc).map_err(no_memory)
}

/// The error of std.
pub(crate) fn no_memory(_: NoMemory) -> AllocError {
    AllocError
}
