//! The text of replies.
ghost use Rattle.std.specs.Prelude.{◌≡◌, ◌∷◌, ◌++◌, codes, OnOk, string_bytes, map};
ghost use Rattle.std.specs.List.{All, flat_map};
ghost use Rattle.sto_model.specs.PlainReplies.{plain_reply};
ghost use Rattle.sto_report_spec.specs.Report.{reply_text, spaced_reply};
ghost use Rattle.sto_journal.specs.Journals.{IsShortlyTold};

use crate::rows::{push_number, push_pairs};
use std::alloc::AllocError;
use std::fmt::Write;
use sto_model::Reply;

/// Adds the text of a reply.
pub fn push_reply(out: &mut String, reply: &Reply) -> Result<(), AllocError>
    ensures text { OnOk result (string_bytes out.new ≡ string_bytes out.old ++ reply_text (plain_reply reply.now)) }
    ensures short { OnOk result (IsShortlyTold reply.now) }
{
    match reply {
        Reply::Done => out.push_str("ok"),
        Reply::Value(value) => push_number(out, *value),
        Reply::Flag(true) => out.push_str("yes"),
        Reply::Flag(false) => out.push_str("no"),
        Reply::Absent => out.push_str("none"),
        Reply::Full => out.push_str("full"),
        Reply::Range => out.push_str("range"),
        Reply::Pairs(pairs) => push_pairs(out, pairs.as_slice()),
    }
}

/// Adds each reply behind a space.
pub fn push_replies(out: &mut String, replies: &[Reply]) -> Result<(), AllocError>
    ensures text { OnOk result (string_bytes out.new ≡ string_bytes out.old ++ flat_map spaced_reply (map plain_reply replies.now)) }
    ensures short { OnOk result (All IsShortlyTold replies.now) }
{
    for reply in replies {
        out.push_str(" ")?;
        push_reply(out, reply)?;
    }
    Ok(())
}
