//! What a call says, in a buffer that is lent to one call after the other.
ghost use Rattle.std.specs.Prelude.{◌≡◌, [], None};
ghost use Rattle.sto_model.specs.PlainReplies.{Done};
ghost use Rattle.sto_type.specs.Plans.{Say, planned};
ghost use Rattle.sto_type.specs.Saying.{said_plan};

use crate::answer::Answer;
use crate::pool::AnswerPool;
use std::alloc::Global;
use std::mem;
use sto_item::{Items, Updates};
use sto_model::Reply;

/// What a call says: its reply, what it observed and what it writes.
///
/// It is lent to one call after the other, and the lists of an earlier call are of use to the next.
#[derive(Drop)]
pub struct Said {
    pub reply: Reply,
    pub items: Items,
    pub updates: Updates,
    /// Lists for what is planned first.
    pub pool: AnswerPool,
}

impl Said {
    /// Nothing is said yet. It takes no memory.
    pub fn new(alloc: Global) -> Said
        ensures { said_plan None result ≡ Say Done [] [] }
    {
        Said {
            reply: Reply::Done,
            items: Items::new(alloc),
            updates: Updates::new(alloc),
            pool: AnswerPool::new(alloc),
        }
    }

    /// Says what an answer says, in place of what was said before; or tells the part that the answer needs.
    pub fn pour(&mut self, answer: Answer) -> Option<u32>
        ensures { said_plan result self.new ≡ planned answer }
    {
        match answer {
            Answer::Need(part) => Some(part),
            Answer::Done {
                reply,
                items,
                updates,
            } => {
                self.reply = reply;
                let items_before = mem::replace(&mut self.items, items);
                let updates_before = mem::replace(&mut self.updates, updates);
                self.pool.keep(items_before, updates_before);
                None
            }
        }
    }
}
