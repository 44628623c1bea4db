//! What one run after the other is lent.
ghost use Rattle.std.specs.Prelude.{◌≡◌, []};

use std::alloc::Global;
use std::mem;
use sto_part::{List, NoMemory};
use sto_trace::Steps;
use sto_transaction::AttemptLists;

/// What a run is lent, and leaves for the next one: memory for the attempts of its threads, and room for its steps.
///
/// So of many runs only the first ones take much memory. Contracts see nothing of it.
#[derive(Drop)]
pub struct Spare {
    memories: Vec<AttemptLists>,
    // Cleared when they are taken.
    steps: Steps,
}

impl Spare {
    /// Nothing yet.
    pub fn new(alloc: Global) -> Spare {
        Spare {
            memories: Vec::new(alloc),
            steps: List::new(alloc),
        }
    }

    /// Lists for the attempts of one thread.
    pub(crate) fn take_memory(&mut self, alloc: Global) -> AttemptLists {
        match self.memories.pop() {
            Some(memory) => memory,
            None => AttemptLists::new(alloc),
        }
    }

    pub(crate) fn keep_memory(&mut self, memory: AttemptLists) -> Result<(), NoMemory> {
        match self.memories.push(memory) {
            Ok(()) => Ok(()),
            Err(_) => Err(NoMemory),
        }
    }

    /// No steps yet.
    pub(crate) fn take_steps(&mut self, alloc: Global) -> Steps
        ensures { result.items ≡ [] }
    {
        let mut steps = mem::replace(&mut self.steps, List::new(alloc));
        steps.clear();
        steps
    }

    /// Keeps the room of steps that nobody looks at any more.
    pub fn keep_steps(&mut self, steps: Steps) {
        self.steps = steps;
    }
}
