//! What an extension of the snapshot keeps while it is under way.
ghost use Rattle.std.specs.Prelude.{◌≡◌, false};

use crate::read_entry::ReadSet;
use std::alloc::Global;
use sto_item::Watches;

/// The last extension, under way or done: the observed parts, and those of them that were read anew.
#[derive(Drop)]
pub struct Extension {
    /// The value of the clock as of which they are read.
    pub bound: u64,
    /// Whether it was begun during the running call of the body.
    pub extended: bool,
    /// The first of the watches as they were read.
    pub fresh: ReadSet,
    /// What was observed, part by part.
    pub watches: Watches,
}

impl Extension {
    /// Nothing to read anew.
    pub(crate) fn new(alloc: Global) -> Extension {
        Extension {
            bound: 0,
            extended: false,
            fresh: ReadSet::new(alloc),
            watches: Watches::new(alloc),
        }
    }

    /// Forgets the last extension. What it has read is used no more.
    pub(crate) fn clear(&mut self)
        ensures { self.new.extended ≡ false }
    {
        self.extended = false;
    }
}
