//! Calls of the checker of reports.
ghost use Rattle.std.specs.Prelude.{ℕ, List, Option, Some, map, IfOk};
ghost use Rattle.sto_args.specs.Asked.{checking_of};
ghost use Rattle.sto_console.specs.Statuses.{EndsWith};
ghost use Rattle.sto_console.specs.Ends.{Ends};
ghost use Rattle.sto_check_cli.specs.Programs.{program, found_status};

use crate::calls::streams::{Called, Failing, Streams, called_with, owned, streams_for};
use std::alloc::Global;
use sto_check_cli::check;
use sto_part::NoMemory;

/// Calls `check` with these words after its name and these bytes as its input. It ends as `check` says of these words, of a
/// source that has these bytes left, and of an output that holds what is given at the end.
pub fn call_check(
    alloc: Global,
    words: &[&str],
    input: &[u8],
    failing: Failing,
) -> Result<Called, NoMemory>
    ensures ends { IfOk result (λ called. EndsWith found_status called.status (λ outcome.
        (rest held : Option (List ℕ)) × Ends program outcome (checking_of (map (λ word. word.now) words.now)) (Some input.now) rest held
        (Some called.out.items))) }
{
    let given = owned(alloc, words)?;
    let Streams {
        mut source,
        mut out,
        mut diag,
    } = streams_for(alloc, input, failing)?;
    let status = check(alloc, given.as_slice(), &mut source, &mut out, &mut diag);
    Ok(called_with(alloc, status, &out, &diag)?)
}
