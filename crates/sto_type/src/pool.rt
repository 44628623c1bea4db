//! Empty lists for the answers of types.
ghost use Rattle.std.specs.Prelude.{◌≡◌, [], IfOk, replicate};

use std::alloc::Global;
use std::marker::Model;
use std::mem;
use sto_item::{Items, Updates};
use sto_part::{Change, List, NoMemory, Update};

/// Empty lists for the answers of a type, with the room that earlier answers have made.
///
/// A plan takes the lists of its answer out of it, and who has noted the answer gives them back. What it holds is empty whenever it can
/// be seen, so contracts see nothing of it.
#[derive(Drop)]
pub struct AnswerPool {
    alloc: Global,
    items: Items,
    updates: Updates,
    // The changes of updates that were noted. Each is emptied when it is taken.
    changes: List<Update>,
}

impl Model for AnswerPool {
    ghost use Rattle.std.specs.Prelude.{◌≡◌, []};

    ghost Value = { Unit {0} };

    ghost view = { λ _. tt };

    ghost invariant = { λ p. (p.items.items ≡ []) × (p.updates.items ≡ []) };
}

impl AnswerPool {
    /// Lists with no room yet. It takes none.
    pub fn new(alloc: Global) -> AnswerPool {
        AnswerPool {
            alloc,
            items: Items::new(alloc),
            updates: Updates::new(alloc),
            changes: List::new(alloc),
        }
    }

    /// A list for what a call observes.
    pub fn items(&mut self) -> Items
        ensures { result.items ≡ [] }
    {
        mem::replace(&mut self.items, Items::new(self.alloc))
    }

    /// A list for what a call writes.
    pub fn updates(&mut self) -> Updates
        ensures { result.items ≡ [] }
    {
        mem::replace(&mut self.updates, Updates::new(self.alloc))
    }

    /// A list for the changes of one part.
    pub fn update(&mut self) -> Update
        ensures { result.items ≡ [] }
    {
        match self.changes.pop() {
            Some(update) => emptied(update),
            None => Update::new(self.alloc),
        }
    }

    /// A list that keeps each of so many words.
    pub fn unchanged(&mut self, width: u32) -> Result<Update, NoMemory>
        ensures { IfOk result (λ u. u.items ≡ replicate width Change.Keep) }
    {
        let mut update = self.update();
        for _ in 0..width {
            update.push(Change::Keep)?;
        }
        Ok(update)
    }

    /// Keeps the room of the lists of an answer that was noted.
    pub fn keep(&mut self, items: Items, updates: Updates) {
        self.items = items;
        self.items.clear();
        self.updates = updates;
        self.updates.take_apart(&mut self.changes);
    }
}

// The list without its changes, and with its room.
fn emptied(update: Update) -> Update
    ensures { result.items ≡ [] }
{
    let mut left = update;
    left.clear();
    left
}
