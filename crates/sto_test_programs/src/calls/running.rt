//! Calls of the programs that run scripts.
ghost use Rattle.std.specs.Prelude.{ℕ, List, Option, Some, map, IfOk};
ghost use Rattle.sto_args.specs.Commands.{command_of};
ghost use Rattle.sto_args.specs.Asked.{feeding_of};
ghost use Rattle.sto_console.specs.Statuses.{EndsWith, done_status};
ghost use Rattle.sto_console.specs.Ends.{Ends};
ghost use Rattle.sto_cli.specs.Programs.{program, answer_status};
ghost use Rattle.sto_feed_cli.specs.Programs.{feed_program};

use crate::calls::streams::{Called, Failing, Streams, called_with, owned, streams_for};
use std::alloc::Global;
use std::sync::Wait;
use std::thread::Threads;
use sto_cli::{Gate, NoMeter, sto};
use sto_feed_cli::feed;
use sto_part::NoMemory;

/// Calls `sto` with these words after its name and the script as its input, on these threads and under this gate. It ends as `sto`
/// says of these words, of a source that has this script left, and of an output that holds what is given at the end.
pub fn call<R: Threads + Sync, G: Gate>(
    threads: &R,
    alloc: Global,
    words: &[&str],
    script: &str,
    failing: Failing,
    gate: &G,
) -> Result<Called, NoMemory>
    ensures ends { IfOk result (λ called. EndsWith answer_status called.status (λ outcome.
        (rest held : Option (List ℕ)) × Ends program outcome (command_of (map (λ word. word.now) words.now)) (Some script.now) rest held
        (Some called.out.items))) }
{
    let given = owned(alloc, words)?;
    let Streams {
        mut source,
        mut out,
        mut diag,
    } = streams_for(alloc, script.as_bytes(), failing)?;
    let status = sto(
        threads,
        alloc,
        given.as_slice(),
        &mut source,
        &mut out,
        &mut diag,
        gate,
        &NoMeter,
    );
    Ok(called_with(alloc, status, &out, &diag)?)
}

/// Calls `feed` so. It ends as `feed` says of these words, of a source that has this script left, and of an output that holds what is
/// given at the end.
pub fn call_feed<R: Threads + Wait + Sync, G: Gate>(
    threads: &R,
    alloc: Global,
    words: &[&str],
    script: &str,
    failing: Failing,
    gate: &G,
) -> Result<Called, NoMemory>
    ensures ends { IfOk result (λ called. EndsWith done_status called.status (λ outcome.
        (rest held : Option (List ℕ)) × Ends feed_program outcome (feeding_of (map (λ word. word.now) words.now)) (Some script.now) rest
        held (Some called.out.items))) }
{
    let given = owned(alloc, words)?;
    let Streams {
        mut source,
        mut out,
        mut diag,
    } = streams_for(alloc, script.as_bytes(), failing)?;
    let status = feed(
        threads,
        alloc,
        given.as_slice(),
        &mut source,
        &mut out,
        &mut diag,
        gate,
    );
    Ok(called_with(alloc, status, &out, &diag)?)
}
