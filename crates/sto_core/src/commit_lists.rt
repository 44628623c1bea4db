//! What a draw is told of its commit, for contracts alone.
ghost use Rattle.std.specs.Prelude.{ℕ, List};
ghost use Rattle.sto_item.specs.Pending.{Entry};

use sto_item::Updates;
use sto_part::Parts;

/// The updates of a commit, and the parts that it looked at, wherever they are kept. No code reads them.
pub trait CommitLists {
    /// What it is to write.
    ghost updates: { Self → List Entry };

    /// The parts that its attempt has seen.
    ghost seen: { Self → List ℕ };

    /// The other parts that it has loaded.
    ghost loaded: { Self → List ℕ };
}

/// The updates and the parts of a commit, each in a list of their own.
#[derive(Drop)]
pub struct ListedCommit<'a> {
    pub updates: &'a Updates,
    pub seen: &'a Parts,
    pub loaded: &'a Parts,
}

impl CommitLists for ListedCommit<'_> {
    ghost updates = { λ lists. lists.updates.now.items };

    ghost seen = { λ lists. lists.seen.now.items };

    ghost loaded = { λ lists. lists.loaded.now.items };
}
