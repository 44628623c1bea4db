//! What code hears of a reply.
ghost use Rattle.std.specs.Prelude.{◌≡◌};
ghost use Rattle.sto_model.specs.PlainReplies.{plain_reply};
ghost use Rattle.sto_action.specs.Shortened.{short_of};
ghost use Rattle.sto_action.specs.Calls.{number, perhaps, is_yes, is_done};

use sto_model::Reply;

/// What code hears of a reply. Of pairs it hears how many there are.
#[derive(Clone, Copy, PartialEq, Eq, Debug)]
pub enum ShortReply {
    Done,
    Value(i64),
    Flag(bool),
    Absent,
    Full,
    Range,
    Pairs(u32),
}

/// What code hears of a reply.
pub(crate) fn shortened(reply: &Reply) -> ShortReply
    ensures { result ≡ short_of (plain_reply reply.now) }
{
    match reply {
        Reply::Done => ShortReply::Done,
        Reply::Value(value) => ShortReply::Value(*value),
        Reply::Flag(yes) => ShortReply::Flag(*yes),
        Reply::Absent => ShortReply::Absent,
        Reply::Full => ShortReply::Full,
        Reply::Range => ShortReply::Range,
        Reply::Pairs(pairs) => ShortReply::Pairs(pairs.len()),
    }
}

/// The value that was answered, or 0.
pub(crate) fn number(heard: ShortReply) -> i64
    ensures { result ≡ number heard }
{
    match heard {
        ShortReply::Value(value) => value,
        _ => 0,
    }
}

/// The value that was answered, where there was one.
pub(crate) fn perhaps(heard: ShortReply) -> Option<i64>
    ensures { result ≡ perhaps heard }
{
    match heard {
        ShortReply::Value(value) => Some(value),
        _ => None,
    }
}

/// Whether yes was answered.
pub(crate) fn is_yes(heard: ShortReply) -> bool
    ensures { result ≡ is_yes heard }
{
    match heard {
        ShortReply::Flag(yes) => yes,
        _ => false,
    }
}

/// Whether the call did what it says.
pub(crate) fn is_done(heard: ShortReply) -> bool
    ensures { result ≡ is_done heard }
{
    matches!(heard, ShortReply::Done)
}
