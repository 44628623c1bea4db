//! The steps of a run, where they are kept.
ghost use Rattle.std.specs.Prelude.{◌≡◌, IfOk, Option, Some};
ghost use Rattle.sto_run_steps.specs.Logged.{kept, with_step};

use sto_part::NoMemory;
use sto_trace::{Step, Steps};

/// The steps so far, where they are kept.
pub(crate) type RunLog = Option<Steps>;

/// How many steps are kept at most.
const MOST_KEPT: u32 = 100_000;

/// One step more; steps that would be too many are given up.
pub(crate) fn with_step(steps: Steps, step: Step) -> Result<RunLog, NoMemory>
    ensures { IfOk result (λ log. kept log ≡ with_step steps.items step) }
{
    let mut steps = steps;
    if steps.len() < MOST_KEPT {
        steps.push(step)?;
        Ok(Some(steps))
    } else {
        Ok(None)
    }
}
