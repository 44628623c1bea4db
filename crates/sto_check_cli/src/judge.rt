//! What is found of what was read.
ghost use Rattle.std.specs.Prelude.{◌≡◌, ◌≤◌, IfOk, IfErr};
ghost use Rattle.sto_check_cli.specs.Inputs.{script_in, has_report};
ghost use Rattle.sto_check_cli.specs.Answers.{IsInputRefusal, IsFoundIn};

use crate::divide::divide;
use std::alloc::Global;
use std::mem;
use sto_checker::{Found, check_report};
use sto_console::{InputFault, Refusal, file_in};
use sto_lang::{FaultKind, ScriptFault};

// How many bytes may be read.
const MOST: usize = 16_777_216;

/// What is found of the report that stands behind a script, for so many tries.
pub(crate) fn found_in(alloc: Global, tries: u32, bytes: &[u8]) -> Result<Found, Refusal>
    requires { 1 ≤ tries }
    ensures found { IfOk result (λ found. IsFoundIn tries bytes.now found) }
    ensures fault { IfErr result (λ e. IsInputRefusal e bytes.now) }
{
    if bytes.len() > MOST {
        return Err(Refusal::Input(InputFault::Script(ScriptFault {
            line: 0,
            kind: FaultKind::TooLarge,
        })));
    }
    let Some((script, report)) = divide(bytes) else {
        return Err(Refusal::Input(InputFault::NoReport));
    };
    let file = file_in(alloc, script)?;
    let found = check_report(alloc, &file, tries, report)?;
    // The program is about to end, and the system takes the file back sooner.
    mem::forget(file);
    Ok(found)
}
