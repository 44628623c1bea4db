//! The table that an attempt works on.
ghost use Rattle.sto_attempt_log.specs.Tables.{IsClear};

use crate::extension::Extension;
use crate::lists::Lists;
use crate::observed::Observed;
use crate::read_entry::ReadSet;
use std::alloc::Global;
use sto_model::Replies;
use sto_part::PartWords;
use sto_type::{Cache, Said};

/// What an attempt works on: what it has found out, the words that it reads, and the lists of its commit.
///
/// A worker makes it once. Attempt after attempt works on its lists in place, so that their room stays, and it is never taken apart.
pub struct Table {
    /// What the body was answered.
    pub replies: Replies,
    /// What was observed of the parts that were read, and the pending updates.
    pub set: Observed,
    /// The parts that were read.
    pub base: ReadSet,
    /// What is known with the pending updates applied.
    pub cache: Cache,
    /// A list for the words of a part to which updates are applied. What stands in it is used no more.
    pub scratch: PartWords,
    /// What the call that the body asks says. Once it was taken in it is used no more.
    pub said: Said,
    /// The words of the open read, in order.
    pub words: PartWords,
    /// The last extension, under way or done.
    pub extension: Extension,
    /// What the commit is led by, and what it finds.
    pub lists: Lists,
}

// By hand, so that whoever drops an attempt drops a table and not each of its lists.
impl Drop for Table {
    fn drop(self) {
        let Table {
            replies: _replies,
            set: _set,
            base: _base,
            cache: _cache,
            scratch: _scratch,
            said: _said,
            words: _words,
            extension: _extension,
            lists: _lists,
        } = self;
    }
}

impl Table {
    /// A table whose lists have no room yet. They take no memory.
    pub(crate) fn new(alloc: Global) -> Table {
        Table {
            replies: Replies::new(alloc),
            set: Observed::new(alloc),
            base: ReadSet::new(alloc),
            cache: Cache::new(alloc),
            scratch: PartWords::new(alloc),
            said: Said::new(alloc),
            words: PartWords::new(alloc),
            extension: Extension::new(alloc),
            lists: Lists::new(alloc),
        }
    }

    /// Clears it for the next attempt, which has found out nothing. The room of its lists stays.
    ///
    /// The lists of a commit are cleared where they are gathered.
    #[inline(always)]
    pub fn clear(&mut self)
        ensures { IsClear self.new }
    {
        self.replies.clear();
        self.set.clear();
        self.base.clear();
        self.cache.forget();
        self.words.clear();
        self.extension.clear();
    }
}
