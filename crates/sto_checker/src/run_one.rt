//! One transaction, run from a state.
ghost use Rattle.std.specs.Prelude.{◌≡◌, length, IfOk, map, true};
ghost use Rattle.sto_model.specs.PlainReplies.{plain_reply};
ghost use Rattle.sto_model.specs.Objects.{machines_of};
ghost use Rattle.sto_model.specs.Serial.{serial_run_of, is_writer_run};
ghost use Rattle.sto_lang.specs.Views.{script as view};
ghost use Rattle.sto_script.specs.Meaning.{meaning_of};
ghost use Rattle.sto_report_spec.specs.Replay.{ending_by};
ghost use Rattle.sto_checker.specs.Runnable.{CanRun};

use crate::written::has_written;
use std::alloc::Global;
use sto_journal::Ending;
use sto_lang::Script;
use sto_model::{End, Outcome, Shapes, State, serial_run};
use sto_part::NoMemory;
use sto_script::ScriptBody;

/// What a transaction did: its replies and its end, and whether it committed with a call that wrote something.
pub(crate) struct SerialOutcome {
    pub(crate) outcome: Outcome,
    pub(crate) writer: bool,
}

/// How the journal tells an end.
pub(crate) fn ending(end: End, writer: bool) -> Ending
    ensures { result ≡ ending_by writer end }
{
    match (end, writer) {
        (End::Cancel, _) => Ending::Cancel,
        (End::Commit, true) => Ending::Commit,
        (End::Commit, false) => Ending::Read,
    }
}

/// Runs a transaction from a state to the state that it leaves.
pub(crate) fn run_transaction(
    alloc: Global,
    script: &Script,
    shapes: &Shapes,
    state: &mut State,
) -> Result<SerialOutcome, NoMemory>
    requires fits { CanRun shapes.now.items (view script.now) }
    requires objects { length state.old.items ≡ length shapes.now.items }
    ensures run { IfOk result (λ ran. serial_run_of (machines_of shapes.now.items) script.now.weight (meaning_of (view script.now))
        state.old.items
        ≡ record { replies = map plain_reply ran.outcome.replies.items; end = ran.outcome.end; after = state.new.items }) }
    ensures writer { IfOk result (λ ran. ran.writer ≡ is_writer_run (meaning_of (view script.now)) (map plain_reply ran.outcome.replies.items)
        ran.outcome.end) }
    ensures objects { length state.new.items ≡ length state.old.items }
{
    let mut body = ScriptBody::new(alloc, script)?;
    let outcome = serial_run(alloc, &mut body, shapes, state)?;
    let writer = match outcome.end {
        End::Commit => has_written(&mut body, outcome.replies.as_slice()),
        End::Cancel => false,
    };
    Ok(SerialOutcome { outcome, writer })
}
