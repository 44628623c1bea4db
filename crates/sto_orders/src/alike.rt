//! Replays that lead to the same outcome.
ghost use Rattle.std.specs.Prelude.{◌≡◌, ◌↔◌, IsTrue, IfOk};
ghost use Rattle.sto_lang.specs.Sound.{IsSound};
ghost use Rattle.sto_lang.specs.Views.{file as view};
ghost use Rattle.sto_journal.specs.Journals.{places};
ghost use Rattle.sto_checker.specs.Runs.{IsReplay};
ghost use Rattle.sto_orders.specs.Outcomes.{IsOrderOutcome, end_of, order_of};

use crate::key::key_of;
use crate::outcome::Outcome;
use crate::same_by::SameBy;
use std::alloc::Global;
use std::cmp::Ordering;
use sto_journal::Lines;
use sto_lang::File;
use sto_model::State;
use sto_part::NoMemory;

/// Whether the replay of a file that has these lines and leaves this state leads to an outcome.
pub fn leads_to(
    alloc: Global,
    file: &File,
    by: SameBy,
    lines: &Lines,
    state: &State,
    outcome: &Outcome,
) -> Result<bool, NoMemory>
    requires sound { IsSound (view file.now) }
    requires replay { IsReplay (view file.now) lines.now.items state.now.items }
    requires outcome { IsOrderOutcome (view file.now) outcome.now }
    ensures { IfOk result (λ same. IsTrue same
        ↔ (end_of by (view file.now) (places lines.now.items) ≡ end_of by (view file.now) (order_of outcome.now))) }
{
    let told = key_of(alloc, file, by, lines.as_slice(), state)?;
    let found = key_of(alloc, file, by, outcome.lines.as_slice(), &outcome.state)?;
    match told.cmp(&found) {
        Ordering::Equal => Ok(true),
        _ => Ok(false),
    }
}
