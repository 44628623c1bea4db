//! What is run by a schedule, and what is told of its runs.
ghost use Rattle.std.specs.Prelude.{◌≡◌, ◌++◌, ℕ, List, Bool, OnOk, IfOk, IfErr, [], ◌∷◌, true};
ghost use Rattle.std.specs.List.{AllByRecursion};
ghost use Rattle.sto_explore.specs.Explored.{Found};
ghost use Rattle.sto_explore.specs.declared.runs.RunError.TheVariants as run_error;
ghost use Rattle.sto_explore.specs.Legs.{turns_of, schedule_of, AreApart, IsAmong, LeadToEnds, AreTold};

use crate::leg::Leg;
use std::alloc::Global;
use sto_part::NoMemory;

/// Why a run was not made.
#[derive(Clone, Copy)]
pub enum RunError {
    NoMemory,
    /// It is too long to be told.
    TooLong,
}

impl From<NoMemory> for RunError {
    ghost from_gives = { λ _ e. e ≡ run_error.NoMemory };

    fn from(_no: NoMemory) -> RunError {
        RunError::NoMemory
    }
}

/// A run that was made: its legs after those that were decided, and what it led to.
#[derive(Drop)]
pub struct LastRun<P> {
    pub legs: Vec<Leg>,
    pub report: P,
}

/// Threads that can be run from their beginning by any schedule, again and again. What a run leads to is a `P`, and what one run keeps for
/// the next one is a `K`.
pub trait Runs<P, K> {
    /// They can be run.
    ghost ready: { Self → Type 0 };

    /// The threads that have something to do.
    ghost threads: { Self → List ℕ };

    /// In a run with these turns the thread that had the last one is over after it, or is not.
    ghost tells: { Self → List ℕ → Bool → Type 0 };

    /// What a run with these turns leads to.
    ghost reports: { Self → List ℕ → P → Type 0 };

    /// One of their runs is too long to be told.
    ghost too_long: { Self → Type 0 };

    /// What earlier runs kept is so.
    ghost keeps: { Self → K → Type 0 };

    /// The threads that have something to do, in the order in which they are tried.
    fn threads(&self) -> &[u32]
        requires { ready self.now }
        ensures threads { result.now ≡ threads self.now }
        ensures apart { AreApart (threads self.now) };

    /// Runs the threads from their beginning: by the legs that are decided, and then each thread of the order to its end, with at least
    /// one turn.
    fn run(
        &self,
        alloc: Global,
        kept: &mut K,
        decided: &[Leg],
        order: &[u32],
    ) -> Result<LastRun<P>, RunError>
        requires ready { ready self.now }
        requires keeps { keeps self.now kept.old }
        requires decided { AllByRecursion (λ leg. IsAmong (threads self.now) leg.thread) decided.now }
        requires order { AllByRecursion (IsAmong (threads self.now)) order.now }
        ensures ends { IfOk result (λ ran. LeadToEnds order.now ran.legs.items) }
        ensures told { IfOk result (λ ran. AreTold (tells self.now) (schedule_of decided.now) (turns_of ran.legs.items)) }
        ensures report { IfOk result (λ ran. reports self.now (schedule_of decided.now ++ schedule_of ran.legs.items) ran.report) }
        ensures keeps { OnOk result (keeps self.now kept.new) }
        ensures too_long { IfErr result (λ why. why ≡ run_error.TooLong → too_long self.now) };
}

/// What gathers the runs that are found.
pub trait Gathers<P> {
    /// These runs were found so far.
    ghost holds: { Self → List (Found P) → Type 0 };

    /// A further run.
    fn add(&mut self, alloc: Global, legs: Vec<Leg>, report: P) -> Result<(), NoMemory>
        ensures { OnOk result ((xs : List (Found P)) → holds self.old xs
            → holds self.new (xs ++ (record { legs = legs.items; report = report }) ∷ [])) };
}
