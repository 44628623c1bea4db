//! Copies of replies.
ghost use Rattle.std.specs.Prelude.{◌≡◌, ◌<◌, ◌^◌, length, map, drop, IfOk};
ghost use Rattle.sto_model.specs.PlainReplies.{plain_reply};

use std::alloc::Global;
use sto_model::{Replies, Reply};
use sto_part::{List, NoMemory};

// The same reply in room of its own.
fn copied(reply: &Reply) -> Result<Reply, NoMemory>
    ensures { IfOk result (λ copy. plain_reply copy ≡ plain_reply reply.now) }
{
    match reply {
        Reply::Done => Ok(Reply::Done),
        Reply::Value(value) => Ok(Reply::Value(*value)),
        Reply::Flag(yes) => Ok(Reply::Flag(*yes)),
        Reply::Absent => Ok(Reply::Absent),
        Reply::Full => Ok(Reply::Full),
        Reply::Range => Ok(Reply::Range),
        Reply::Pairs(pairs) => Ok(Reply::Pairs(pairs.copied()?)),
    }
}

// Copies of all these replies.
fn all_copied(alloc: Global, replies: &[Reply]) -> Result<Replies, NoMemory>
    requires few { length replies.now < 2 ^ 32 }
    ensures copied { IfOk result (λ copies. map plain_reply copies.items ≡ map plain_reply replies.now) }
{
    let mut copies = List::new(alloc);
    for reply in replies {
        copies.push(copied(reply)?)?;
    }
    Ok(copies)
}

/// Copies of the replies past the first so many; none where there are no more.
pub fn replies_past(replies: &Replies, heard: u32) -> Result<Replies, NoMemory>
    ensures { IfOk result (λ copies. map plain_reply copies.items ≡ drop heard (map plain_reply replies.now.items)) }
{
    let alloc = replies.allocator();
    if heard < replies.len() {
        all_copied(alloc, &replies.as_slice()[heard as usize..])
    } else {
        Ok(List::new(alloc))
    }
}
