//! Records as they are typed.
use std::alloc::Global;
use sto_attempt::Verdict;
use sto_model::{Replies, Reply};
use sto_part::{List, NoMemory};
use sto_transaction::Record;

// The reply that a word of a report tells; none where the word is another.
fn reply_of(word: &str) -> Option<Reply> {
    match word {
        "ok" => Some(Reply::Done),
        "yes" => Some(Reply::Flag(true)),
        "no" => Some(Reply::Flag(false)),
        _ => word.parse().ok().map(Reply::Value),
    }
}

fn replies_of(alloc: Global, said: &str) -> Result<Replies, NoMemory> {
    let mut replies = List::new(alloc);
    for word in said.split_whitespace() {
        if replies.len() == u32::MAX {
            return Err(NoMemory);
        }
        if let Some(reply) = reply_of(word) {
            replies.push(reply)?;
        }
    }
    Ok(replies)
}

/// Adds the record of an attempt of the first transaction of a thread, with its replies as a report writes them.
pub(crate) fn add(
    records: &mut Vec<Record>,
    alloc: Global,
    thread: u32,
    said: &str,
    verdict: Verdict,
) -> Result<(), NoMemory> {
    let record = Record {
        thread,
        position: 1,
        replies: replies_of(alloc, said)?,
        verdict,
    };
    records.push(record).map_err(|_| NoMemory)
}
