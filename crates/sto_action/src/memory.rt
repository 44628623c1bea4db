//! The memory that is lent to one transaction of code after the other.
ghost use Rattle.std.specs.Prelude.{◌≡◌, []};

use crate::short_reply::ShortReply;
use std::alloc::Global;
use std::marker::Model;
use std::mem;
use sto_model::Replies;
use sto_part::List;
use sto_transaction::{AttemptLists, Record};

/// The lists of a transaction of code while none uses them: each is empty, and has the room that earlier transactions have made.
///
/// Who runs transactions lends it to one after the other. So nothing is allocated for a transaction that is no larger than those before
/// it. After want of memory the room of some lists may be lost. Contracts see nothing of it.
#[derive(Drop)]
pub struct ActionLists {
    alloc: Global,
    pub(crate) attempts: AttemptLists,
    records: Vec<Record>,
    heard: List<ShortReply>,
}

impl Model for ActionLists {
    ghost use Rattle.std.specs.Prelude.{◌≡◌, []};

    ghost Value = { Unit {0} };

    ghost view = { λ _. tt };

    ghost invariant = { λ m. m.records.items ≡ [] };
}

impl ActionLists {
    /// Lists with no room yet. They take no memory.
    pub fn new(alloc: Global) -> ActionLists {
        ActionLists {
            alloc,
            attempts: AttemptLists::new(alloc),
            records: Vec::new(alloc),
            heard: List::new(alloc),
        }
    }

    /// A list for the record of an attempt.
    pub(crate) fn take_records(&mut self) -> Vec<Record>
        ensures { result.items ≡ [] }
    {
        mem::replace(&mut self.records, Vec::new(self.alloc))
    }

    /// A list for what code hears.
    pub(crate) fn take_heard(&mut self) -> List<ShortReply> {
        mem::replace(&mut self.heard, List::new(self.alloc))
    }

    /// Keeps the room of what an attempt was answered, of its record, and of what its code heard.
    pub(crate) fn keep(&mut self, replies: Replies, records: Vec<Record>, heard: List<ShortReply>) {
        self.attempts.keep_replies(replies);
        let mut records = records;
        records.clear();
        self.records = records;
        self.heard = heard;
    }
}
