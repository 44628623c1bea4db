//! The run of a whole file.
ghost use Rattle.std.specs.Prelude.{◌≡◌, [], length, IfOk};
ghost use Rattle.sto_lang.specs.Sound.{IsSound};
ghost use Rattle.sto_lang.specs.Views.{file as view};
ghost use Rattle.sto_journal.specs.Journals.{HaveRows, HaveThreads, places};
ghost use Rattle.sto_checker.specs.Runs.{IsReplay, thread_order};

use crate::progress::Progress;
use std::alloc::Global;
use sto_journal::{Aborts, Journal, Lines};
use sto_lang::File;
use sto_model::State;
use sto_part::NoMemory;

/// Runs every transaction of a file one after the other, thread by thread and in rising position.
///
/// The journal is the replay of the file in this order: its lines, and the state that was left. No attempt is aborted.
pub fn run_file(alloc: Global, file: &File) -> Result<Journal, NoMemory>
    requires { IsSound (view file.now) }
    ensures replay { IfOk result (λ journal. IsReplay (view file.now) journal.lines.items journal.state.items) }
    ensures order { IfOk result (λ journal. places journal.lines.items ≡ thread_order (view file.now)) }
    ensures aborts { IfOk result (λ journal. journal.aborts.items ≡ []) }
    ensures threads { IfOk result (λ journal. HaveThreads (length file.now.threads.items) journal.lines.items) }
    ensures rows { IfOk result (λ journal. HaveRows journal.state.items file.now.decls.items) }
{
    let shapes = sto_lang::shapes(alloc, file)?;
    let mut run = Progress {
        lines: Lines::new(alloc),
        writers: 0,
        state: State::opening(alloc, &shapes)?,
    };
    for thread in 0..file.threads.len() {
        run.run_thread(alloc, file, &shapes, thread)?;
    }
    let Progress { lines, state, .. } = run;
    Ok(Journal {
        lines,
        aborts: Aborts::new(alloc),
        state,
    })
}
