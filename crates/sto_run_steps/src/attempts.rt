//! Attempts of transactions that are made event by event.
ghost use Rattle.std.specs.Prelude.{◌≡◌, ◌≤◌, ℕ, List, IfOk, option_copied};
ghost use Rattle.sto_model.specs.PlainReplies.{PlainReply};
ghost use Rattle.sto_core.specs.declared.view.View.{View};
ghost use Rattle.sto_run_threads.specs.Orders.{TransactionPlace};
ghost use Rattle.sto_run_threads.specs.Plans.{MayDraw};
ghost use Rattle.sto_run_threads.specs.Ran.{IsTransaction};
ghost use Rattle.sto_run_steps.specs.Leading.{MayStep, MakesEvent, Steps};
ghost use Rattle.sto_run_steps.specs.Logged.{answered};

use std::alloc::Global;
use sto_attempt::Verdict;
use sto_core::Cells;
use sto_model::Replies;
use sto_part::{Naming, NoMemory};
use sto_run_threads::Work;
use sto_transaction::AttemptLists;

/// Where a step has led an attempt.
#[derive(Drop)]
pub enum Stepped {
    /// There is a further event.
    More,
    /// It has ended: what its calls were answered, and how.
    Ended { replies: Replies, verdict: Verdict },
}

/// What makes attempts of the transactions of a file, of which each is a machine `M` that makes one event at a time.
///
/// Many attempts may run side by side, each on a pass of its own.
pub trait Attempts<T: Naming, M>: Work<T> {
    /// On words with so many passes, the machine of an attempt of this transaction, which began at the first view, has led to the second.
    ghost fits: { Self → ℕ → TransactionPlace → M → View → View → Type 0 };

    /// How many events are left at most.
    ghost left: { Self → M → ℕ };

    /// How many events an attempt makes at most.
    ghost most: { Self → ℕ };

    /// What the calls of an attempt have been answered so far.
    ghost heard: { Self → M → List PlainReply };

    /// How many attempts of a transaction may be aborted.
    fn most_tries(&self) -> u32
        ensures { result ≡ (Self.plan self.now).tries };

    /// An attempt of the transaction at a place, which has made no event yet. It takes the memory.
    fn begin(
        &self,
        alloc: Global,
        thread: u32,
        position: u32,
        memory: &mut AttemptLists,
    ) -> Result<M, NoMemory>
        requires ready { Self.ready self.now }
        requires there { IsTransaction (Self.plan self.now).file (thread, position) }
        ensures fits { IfOk result (λ trial. (passes : ℕ) (v : View) → MayDraw (Self.plan self.now) 1 v
            → fits self.now passes (thread, position) trial v v) }
        ensures left { IfOk result (λ trial. left self.now trial ≤ most self.now) };

    /// Makes the next event of an attempt of the transaction at a place, on the pass of the events before, with its view as they left it.
    /// The last event puts the memory back.
    fn step<C: Cells<T>>(
        &self,
        alloc: Global,
        trial: &mut M,
        thread: u32,
        position: u32,
        cells: &mut C,
        memory: &mut AttemptLists,
    ) -> Result<Stepped, NoMemory>
        requires { MayStep C.Cells (fits self.now) (thread, position) trial.old cells.old }
        ensures same { C.same cells.old cells.new }
        ensures event { MakesEvent T.Naming C.Cells cells.old cells.new }
        ensures stepped { Steps C.Cells (fits self.now) (thread, position) (Self.plan self.now) (left self.now)
            trial.old trial.new cells.old cells.new result };

    /// What the calls of an attempt that goes on have been answered so far.
    fn replies<'m>(&self, trial: &'m M) -> Option<&'m Replies>
        ensures { answered (option_copied result) ≡ heard self.now trial.now };
}
