//! Empty lists, which are kept for their room.
ghost use Rattle.std.specs.Prelude.{◌≡◌, []};
ghost use Rattle.sto_lang.specs.Statements.{Nothing};

use crate::Stmts;
use crate::open_transaction::OpenBlock;
use std::alloc::Global;
use sto_part::List;

/// An empty list of statements.
#[derive(Drop)]
pub(crate) struct Spare {
    statements: Stmts,
    ghost empty: { statements ≡ Nothing },
}

impl Spare {
    pub(crate) fn new(alloc: Global) -> Spare {
        Spare {
            statements: Stmts::new(alloc),
        }
    }

    /// The room of these statements, which are taken away.
    pub(crate) fn of(mut statements: Stmts) -> Spare {
        statements.clear();
        Spare { statements }
    }

    pub(crate) fn into_list(self) -> Stmts
        ensures { result ≡ Nothing }
    {
        let Spare { statements } = self;
        statements
    }
}

/// The room of a transaction's lists: that of its open blocks, of its statements, and of those of a branch or a body.
#[derive(Drop)]
pub(crate) struct Room {
    pub(crate) blocks: List<OpenBlock>,
    pub(crate) statements: Spare,
    pub(crate) inner: Spare,
    ghost empty: { blocks.items ≡ [] },
}

impl Room {
    pub(crate) fn new(alloc: Global) -> Room {
        Room {
            blocks: List::new(alloc),
            statements: Spare::new(alloc),
            inner: Spare::new(alloc),
        }
    }
}
