//! The line that is printed.
ghost use Rattle.std.specs.Prelude.{◌≡◌, IfOk, string_bytes};
ghost use Rattle.sto_check_cli.specs.Programs.{text_of};

use std::alloc::{AllocError, Global};
use sto_checker::Found;

/// The line of what was found.
pub(crate) fn text_of(alloc: Global, found: Found) -> Result<String, AllocError>
    ensures { IfOk result (λ text. string_bytes text ≡ text_of found) }
{
    match found {
        Found::Lawful => String::from_str(alloc, "lawful\n"),
        Found::Not { line } => format!(in alloc; "line {line}\n"),
    }
}
