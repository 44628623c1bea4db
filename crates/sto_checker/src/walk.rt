//! Walks along the calls that replies answer.
ghost use Rattle.std.specs.Prelude.{◌≡◌, ◌↔◌, ◌<◌, ◌^◌, length, IfOk, IsTrue, map};
ghost use Rattle.sto_model.specs.PlainReplies.{plain_reply};
ghost use Rattle.sto_model.specs.Asked.{HasAsked, IsUnsettled};
ghost use Rattle.sto_checker.specs.Heard.{AreHeard};
ghost use Rattle.sto_checker.specs.Written.{objects_along};

use std::alloc::Global;
use sto_model::{Body, Next, Reply, writes};
use sto_part::{List, NoMemory};

/// The objects of the calls that wrote something, where a body hears these replies from its beginning.
pub fn objects_written<B: Body>(
    alloc: Global,
    body: &mut B,
    replies: &[Reply],
) -> Result<List<u32>, NoMemory>
    requires { length replies.now < 2 ^ 32 }
    ensures { IfOk result (λ objects. objects.items ≡ objects_along (B.script body.old) (map plain_reply replies.now)) }
{
    let mut objects = List::new(alloc);
    body.reset();
    for reply in replies {
        let Next::Ask(call) = body.next() else {
            return Ok(objects);
        };
        if writes(call.operation, reply) {
            objects.push(call.object)?;
        }
        body.hear(reply);
    }
    Ok(objects)
}

/// Whether an attempt that heard these replies may still be aborted: a call is next, or the commit of a run that has written.
pub fn is_unsettled<B: Body>(body: &mut B, replies: &[Reply]) -> bool
    requires { AreHeard (B.script body.old) (map plain_reply replies.now) }
    ensures unsettled { IsTrue result ↔ IsUnsettled (B.script body.old) (map plain_reply replies.now) }
    ensures script { B.script body.new ≡ B.script body.old }
{
    let mut written = false;
    body.reset();
    for reply in replies {
        let Next::Ask(call) = body.next() else {
            return false;
        };
        written = written || writes(call.operation, reply);
        body.hear(reply);
    }
    match body.next() {
        Next::Ask(_) => true,
        Next::Commit => written,
        Next::Cancel => false,
    }
}

/// Whether one of the calls that these replies answer, or the one that is asked next, is one on an object.
pub fn has_asked<B: Body>(body: &mut B, replies: &[Reply], object: u32) -> bool
    requires { AreHeard (B.script body.old) (map plain_reply replies.now) }
    ensures { IsTrue result ↔ HasAsked object (B.script body.old) (map plain_reply replies.now) }
{
    body.reset();
    for reply in replies {
        let Next::Ask(call) = body.next() else {
            return false;
        };
        if call.object == object {
            return true;
        }
        body.hear(reply);
    }
    match body.next() {
        Next::Ask(call) => call.object == object,
        Next::Commit | Next::Cancel => false,
    }
}
