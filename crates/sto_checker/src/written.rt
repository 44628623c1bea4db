//! Whether a transaction wrote something.
ghost use Rattle.std.specs.Prelude.{◌≡◌, map};
ghost use Rattle.sto_model.specs.PlainReplies.{plain_reply};
ghost use Rattle.sto_model.specs.Serial.{has_written};
ghost use Rattle.sto_checker.specs.Heard.{AreHeard};

use sto_model::{Body, Next, Reply, writes};

/// Whether one of the calls that the body asks, where it hears these replies from its beginning, writes something.
pub(crate) fn has_written<B: Body>(body: &mut B, replies: &[Reply]) -> bool
    requires { AreHeard (B.script body.old) (map plain_reply replies.now) }
    ensures { result ≡ has_written (B.script body.old) (map plain_reply replies.now) }
{
    body.reset();
    for reply in replies {
        if let Next::Ask(call) = body.next() {
            if writes(call.operation, reply) {
                return true;
            }
            body.hear(reply);
        }
    }
    false
}
