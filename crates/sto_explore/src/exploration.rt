//! One run by each schedule.
ghost use Rattle.std.specs.Prelude.{◌≡◌, ◌≤◌, [], OnOk, IfOk, IfErr, List, map, length, max};
ghost use Rattle.std.specs.List.{AllByRecursion};
ghost use Rattle.sto_explore.specs.declared.exploration.ExploreError.TheVariants.{TooLong, TooMany};
ghost use Rattle.sto_explore.specs.declared.runs.RunError.TheVariants as run_error;
ghost use Rattle.sto_explore.specs.NotMade.{stopped_by};
ghost use Rattle.sto_explore.specs.Schedules.{Place};
ghost use Rattle.sto_explore.specs.Legs.{IsAmong};
ghost use Rattle.sto_explore.specs.Branches.{offer_of};
ghost use Rattle.sto_explore.specs.Exploring.{IsOffer, IsOrdered, HasVisited, IsUnderWay, order_after};
ghost use Rattle.sto_explore.specs.Explored.{Found, AreExplored, AreTooMany, start_of};

use crate::branch::{Branch, offer_all, offer_others, order_of};
use crate::leg::Leg;
use crate::runs::{Gathers, LastRun, RunError, Runs};
use std::alloc::Global;

/// Why an exploration was given up.
#[derive(Clone, Copy)]
pub enum ExploreError {
    NoMemory,
    /// A run is too long to be told.
    TooLong,
    /// There are more schedules than may be tried.
    TooMany,
}

impl From<RunError> for ExploreError {
    ghost from_gives = { λ why e. e ≡ stopped_by why };

    fn from(why: RunError) -> ExploreError {
        match why {
            RunError::NoMemory => ExploreError::NoMemory,
            RunError::TooLong => ExploreError::TooLong,
        }
    }
}

// Makes one run, hands it on, and adds a branch for each other thread that may go on after its first turn.
fn visit<P: Drop, K, R: Runs<P, K>, G: Gathers<P>>(
    runs: &R,
    alloc: Global,
    kept: &mut K,
    todo: &mut Vec<Branch>,
    found: &mut G,
    decided: Vec<Leg>,
    left: u32,
    order: &[u32],
) -> Result<(), RunError>
    requires ready { R.ready runs.now }
    requires keeps { R.keeps runs.now kept.old }
    requires decided { AllByRecursion (λ leg. IsAmong (R.threads runs.now) leg.thread) decided.items }
    requires order { AllByRecursion (IsAmong (R.threads runs.now)) order.now }
    ensures visited { OnOk result ((start : Place) → IsOrdered start (R.tells runs.now) decided.items left order.now
        → HasVisited start (R.tells runs.now) (R.reports runs.now) (G.holds found.old) (G.holds found.new) decided.items order.now
        (map offer_of todo.old.items) (map offer_of todo.new.items)) }
    ensures keeps { OnOk result (R.keeps runs.now kept.new) }
    ensures too_long { IfErr result (λ why. why ≡ run_error.TooLong → R.too_long runs.now) }
{
    let first = decided.as_slice();
    let ran = runs.run(alloc, kept, first, order)?;
    let LastRun { legs, report } = ran;
    let made = legs.as_slice();
    let all = offer_all(alloc, todo, decided, left, order, made)?;
    found.add(alloc, all, report)?;
    Ok(())
}

// Makes the run of a branch.
fn take_up<P: Drop, K, R: Runs<P, K>, G: Gathers<P>>(
    runs: &R,
    alloc: Global,
    kept: &mut K,
    todo: &mut Vec<Branch>,
    found: &mut G,
    branch: Branch,
) -> Result<(), RunError>
    requires ready { R.ready runs.now }
    requires keeps { R.keeps runs.now kept.old }
    requires offered { (start : Place) × (start.going ≡ R.threads runs.now) × IsOffer start (R.tells runs.now) (offer_of branch) }
    ensures visited { OnOk result ((start : Place) → start.going ≡ R.threads runs.now → IsOffer start (R.tells runs.now) (offer_of branch)
        → HasVisited start (R.tells runs.now) (R.reports runs.now) (G.holds found.old) (G.holds found.new) branch.decided.items
        (order_after (R.threads runs.now) branch.decided.items branch.next) (map offer_of todo.old.items) (map offer_of todo.new.items)) }
    ensures keeps { OnOk result (R.keeps runs.now kept.new) }
    ensures too_long { IfErr result (λ why. why ≡ run_error.TooLong → R.too_long runs.now) }
{
    let Branch {
        decided,
        next,
        left,
    } = branch;
    let all = runs.threads();
    let legs = decided.as_slice();
    let order = order_of(alloc, all, legs, next)?;
    let ordered = order.as_slice();
    visit(runs, alloc, kept, todo, found, decided, left, ordered)?;
    Ok(())
}

// Makes the first run, each thread from its beginning to its end.
fn begin<P: Drop, K, R: Runs<P, K>, G: Gathers<P>>(
    runs: &R,
    alloc: Global,
    kept: &mut K,
    switches: u32,
    found: &mut G,
) -> Result<Vec<Branch>, RunError>
    requires ready { R.ready runs.now }
    requires keeps { R.keeps runs.now kept.old }
    requires none { G.holds found.old [] }
    ensures begun { IfOk result (λ todo. IsUnderWay (start_of switches (R.threads runs.now)) (R.tells runs.now) (R.reports runs.now)
        (G.holds found.new) 1 (map offer_of todo.items)) }
    ensures keeps { OnOk result (R.keeps runs.now kept.new) }
    ensures too_long { IfErr result (λ why. why ≡ run_error.TooLong → R.too_long runs.now) }
{
    let mut todo = Vec::new(alloc);
    let none = Vec::new(alloc);
    let all = runs.threads();
    offer_others(alloc, &mut todo, none.as_slice(), switches, all)?;
    visit(runs, alloc, kept, &mut todo, found, none, switches, all)?;
    Ok(todo)
}

/// Makes one run by each schedule with at most so many switches away from a thread that could go on, and hands each on. What one run keeps
/// the next one finds.
///
/// At most `limit` runs are made, but at least one. Where a schedule is left that none of them follows, this is `TooMany`. After a run that
/// is too long to be told no other is made.
pub fn explore<P: Drop, K, R: Runs<P, K>, G: Gathers<P>>(
    runs: &R,
    alloc: Global,
    switches: u32,
    limit: u32,
    kept: &mut K,
    found: &mut G,
) -> Result<(), ExploreError>
    requires ready { R.ready runs.now }
    requires keeps { R.keeps runs.now kept.old }
    requires none { G.holds found.old [] }
    ensures explored { OnOk result ((xs : List (Found P)) × G.holds found.new xs
        × AreExplored (start_of switches (R.threads runs.now)) (R.tells runs.now) (R.reports runs.now) xs × (length xs ≤ max 1 limit)) }
    ensures too_many { IfErr result (λ why. why ≡ TooMany → (xs : List (Found P)) × G.holds found.new xs
        × AreTooMany (start_of switches (R.threads runs.now)) (R.tells runs.now) (R.reports runs.now) limit xs) }
    ensures too_long { IfErr result (λ why. why ≡ TooLong → R.too_long runs.now) }
{
    let mut todo = begin(runs, alloc, kept, switches, found)?;
    for _made in 1..limit {
        match todo.pop() {
            Some(branch) => take_up(runs, alloc, kept, &mut todo, found, branch)?,
            None => return Ok(()),
        }
    }
    if todo.is_empty() {
        Ok(())
    } else {
        Err(ExploreError::TooMany)
    }
}
