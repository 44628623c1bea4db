//! The type of a tree.
ghost use Rattle.std.specs.Prelude.{◌≡◌, ◌<◌, ◌≤◌, ◌^◌, [], ◌∷◌};
ghost use Rattle.sto_model.specs.Objects.{takes};
ghost use Rattle.sto_tree.specs.Layout.{parts_of};
ghost use Rattle.sto_tree.specs.Meaning.{tree_meaning};
ghost use Rattle.sto_tree.specs.Lawful.{tree_is_lawful};
ghost use Rattle.sto_tree.specs.Named.{IsTreeOf};

use crate::between::plan_between;
use crate::contents::{opening, rows_from, width_at};
use crate::get::plan_get;
use crate::len::plan_len;
use crate::next::plan_next;
use crate::put::plan_put;
use crate::remove::plan_remove;
use std::alloc::Global;
use sto_model::{Call, Operation, Shape, State};
use sto_part::{Contents, Naming, NoMemory};
use sto_type::{Answer, AnswerPool, Home, KnownParts, TxType};

/// An ordered tree of so many leaves: a directory, and for each leaf 8 places.
#[derive(Drop)]
pub struct TTree {
    leaves: u32,
    ghost some: { 1 ≤ leaves },
    ghost few: { parts_of leaves < 2 ^ 32 },
}

impl TTree {
    /// A tree of so many leaves, with no pair. Its parts are to be in u32.
    pub fn new(leaves: u32) -> TTree
        requires some { 1 ≤ leaves }
        requires few { parts_of leaves < 2 ^ 32 }
        ensures { result.leaves ≡ leaves }
    {
        TTree { leaves }
    }
}

impl Naming for TTree {
    ghost sizes = { λ x. x.leaves ∷ [] };

    ghost valid = { IsTreeOf };
}

impl TxType for TTree {
    ghost meaning = { λ x. tree_meaning x.leaves };

    ghost valid_is = { λ x c. (λ h. h, λ h. h) };

    ghost lawful = { λ x. tree_is_lawful x.leaves x.some x.few };

    fn objects(&self) -> u32 {
        1
    }

    fn parts(&self) -> u32 {
        2 + 9 * self.leaves
    }

    fn width(&self, part: u32) -> u32 {
        width_at(self.leaves, part)
    }

    fn home(&self, part: u32) -> Home {
        Home {
            object: 0,
            local: part,
        }
    }

    fn takes(&self, call: &Call) -> bool {
        let _first = call.a;
        let _second = call.b;
        let shape = Shape::Tree {
            leaves: self.leaves,
        };
        call.object == 0 && shape.takes_call(call)
    }

    fn opening(&self, alloc: Global) -> Result<Contents, NoMemory> {
        opening(alloc, self.leaves)
    }

    fn rows_at(&self, alloc: Global, contents: &Contents, first: u32) -> Result<State, NoMemory> {
        let rows = rows_from(alloc, self.leaves, contents, first)?;
        let mut state = State::new(alloc);
        state.push(rows)?;
        Ok(state)
    }

    fn plan(
        &self,
        alloc: Global,
        pool: &mut AnswerPool,
        call: &Call,
        cache: &KnownParts<'_>,
    ) -> Result<Answer, NoMemory> {
        let leaves = self.leaves;
        match call.operation {
            Operation::Get => plan_get(pool, leaves, call, cache),
            Operation::Put => plan_put(alloc, pool, leaves, call, cache),
            Operation::Remove => plan_remove(pool, leaves, call, cache),
            Operation::Len => plan_len(pool, leaves, call, cache),
            Operation::Next => plan_next(alloc, pool, leaves, call, cache),
            Operation::Count => plan_between(alloc, pool, leaves, call, cache, false),
            Operation::Scan => plan_between(alloc, pool, leaves, call, cache, true),
            _ => unreachable!(),
        }
    }
}
