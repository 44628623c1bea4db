//! A run that goes on transaction by transaction.
ghost use Rattle.std.specs.Prelude.{◌≡◌, ◌+◌, ◌*◌, ◌<◌, ◌≤◌, ◌^◌, [], ◌∷◌, ◌++◌, length, IfOk, OnOk};
ghost use Rattle.sto_model.specs.SequentialObjects.{opening_of};
ghost use Rattle.sto_model.specs.Objects.{machines_of};
ghost use Rattle.sto_lang.specs.Objects.{shapes_of};
ghost use Rattle.sto_lang.specs.Views.{file as view};
ghost use Rattle.sto_report_spec.specs.Orders.{transaction_at, count_in};
ghost use Rattle.sto_journal.specs.Journals.{places};
ghost use Rattle.sto_checker.specs.Runnable.{IsRunnable};
ghost use Rattle.sto_checker.specs.Runs.{IsSoFar, places_of};

use crate::run_one::{SerialOutcome, ending, run_transaction};
use std::alloc::Global;
use sto_journal::{Journal, Line, Lines};
use sto_lang::File;
use sto_model::{Shapes, State};
use sto_part::NoMemory;

/// What a run has done so far: the lines of its transactions, how many of them were writers, and the state that they left.
#[derive(Drop)]
pub struct Progress {
    pub lines: Lines,
    pub writers: u32,
    pub state: State,
}

impl Progress {
    /// A run that has done nothing: no line, no writer, and the declared state of objects of these shapes.
    pub fn opening(alloc: Global, shapes: &Shapes) -> Result<Progress, NoMemory>
        ensures lines { IfOk result (λ p. p.lines.items ≡ []) }
        ensures writers { IfOk result (λ p. p.writers ≡ 0) }
        ensures state { IfOk result (λ p. p.state.items ≡ opening_of (machines_of shapes.now.items)) }
    {
        Ok(Progress {
            lines: Lines::new(alloc),
            writers: 0,
            state: State::opening(alloc, shapes)?,
        })
    }

    /// Runs the transaction at a place of the file after those that were run so far, and adds its line.
    pub fn run_one(
        &mut self,
        alloc: Global,
        file: &File,
        shapes: &Shapes,
        thread: u32,
        position: u32,
    ) -> Result<(), NoMemory>
        requires runnable { IsRunnable (view file.now) }
        requires shapes { shapes.now.items ≡ shapes_of (view file.now).declarations }
        requires thread { thread < length file.now.threads.items }
        requires first { 1 ≤ position }
        requires last { position ≤ count_in (view file.now).threads thread }
        requires room { length self.old.lines.items + 1 < 2 ^ 32 }
        requires so_far { IsSoFar (view file.now) self.old.lines.items self.old.writers self.old.state.items }
        ensures so_far { OnOk result (IsSoFar (view file.now) self.new.lines.items self.new.writers self.new.state.items) }
        ensures placed { OnOk result (places self.new.lines.items ≡ places self.old.lines.items ++ (thread, position) ∷ []) }
        ensures counted { OnOk result (length self.new.lines.items ≡ length self.old.lines.items + 1) }
    {
        let script = file.threads.get(thread).scripts.get(position - 1);
        let SerialOutcome { outcome, writer } = run_transaction(
            alloc,
            script,
            shapes,
            &mut self.state,
        )?;
        if writer {
            self.writers += 1;
        }
        self.lines.push(Line {
            k: self.writers,
            thread,
            position,
            end: ending(outcome.end, writer),
            replies: outcome.replies,
        })?;
        Ok(())
    }

    /// Runs all transactions of a thread, in rising position.
    pub(crate) fn run_thread(
        &mut self,
        alloc: Global,
        file: &File,
        shapes: &Shapes,
        thread: u32,
    ) -> Result<(), NoMemory>
        requires runnable { IsRunnable (view file.now) }
        requires shapes { shapes.now.items ≡ shapes_of (view file.now).declarations }
        requires thread { thread < length file.now.threads.items }
        requires room { length self.old.lines.items ≤ 10000 * thread }
        requires so_far { IsSoFar (view file.now) self.old.lines.items self.old.writers self.old.state.items }
        ensures so_far { OnOk result (IsSoFar (view file.now) self.new.lines.items self.new.writers self.new.state.items) }
        ensures placed { OnOk result (places self.new.lines.items ≡ places self.old.lines.items
            ++ places_of thread (count_in (view file.now).threads thread)) }
        ensures counted { OnOk result (length self.new.lines.items
            ≡ length self.old.lines.items + count_in (view file.now).threads thread) }
    {
        let count = file.threads.get(thread).scripts.len();
        for earlier in 0..count {
            self.run_one(alloc, file, shapes, thread, earlier + 1)?;
        }
        Ok(())
    }
}
