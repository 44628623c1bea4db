//! The top call.
ghost use Rattle.std.specs.Prelude.{◌≡◌};
ghost use Rattle.sto_args.specs.Asked.{feeding_in};
ghost use Rattle.sto_console.specs.Said.{Says};
ghost use Rattle.sto_console.specs.Statuses.{line_of, done_status, EndsWith};
ghost use Rattle.sto_console.specs.Ends.{Ends};
ghost use Rattle.sto_console.specs.Outcomes.{IsDone};
ghost use Rattle.sto_console.specs.Causes.{HasCauses};
ghost use Rattle.sto_feed_cli.specs.Programs.{feed_program};

use crate::work::perform;
use std::alloc::Global;
use std::sync::Wait;
use std::thread::Threads;
use sto_console::{Sink, Source, say, status};
use sto_run_feed::Gate;

/// All that the program does with the words after its name, `[--threads N] [--tries N]`: it reads a script, runs it on N workers,
/// to which a feeder sends its transactions one by one through queues, and prints the report. Where no number of threads is
/// given, there are as many workers as the script has threads, at least 1 and at most 16. It gives the exit status.
///
/// | Status | When | `out` gains | `diag` gains |
/// |---|---|---|---|
/// | 0 | all is done | a lawful report of the script and the tries | nothing |
/// | 2 | the words are not in the grammar | nothing | `sto: usage` |
/// | 3 | the bytes that were read have a fault | nothing | `sto: line L: KIND` |
/// | 4 | the source failed | nothing | `sto: read fault` |
/// | 5 | `out` failed | a front of the report | `sto: write fault` |
/// | 6 | memory could not be had | nothing | `sto: out of memory` |
///
/// A worker whose queue is empty waits for its next job.
pub fn feed<R: Threads + Wait + Sync, S: Source, K: Sink, E: Sink, G: Gate>(
    rt: &R,
    alloc: Global,
    words: &[String],
    source: &mut S,
    out: &mut K,
    diag: &mut E,
    gate: &G,
) -> u8
    // The headline: with status 0 all of the input was read, and exactly one text was written, one that the words ask for.
    ensures headline { result ≡ 0
        → IsDone feed_program tt (feeding_in words.now) (S.left source.old) (S.left source.new) (K.held out.old) (K.held out.new) }
    // One outcome has this status and these effects, and its line is written beside.
    ensures ends { EndsWith done_status result (λ outcome.
        Ends feed_program outcome (feeding_in words.now) (S.left source.old) (S.left source.new) (K.held out.old) (K.held out.new)
        × Says (line_of outcome) (E.held diag.old) (E.held diag.new) (E.faults diag.old) (E.faults diag.new)) }
    // What follows: the cause of each status, and what stays as it was.
    ensures causes { HasCauses feed_program done_status result (feeding_in words.now) (S.left source.old) (S.left source.new)
        (K.held out.old) (K.held out.new) (S.faults source.old) (S.faults source.new) (K.faults out.old) (K.faults out.new) }
{
    let outcome = perform(rt, alloc, words, source, out, gate);
    status(say(alloc, diag, outcome))
}
