//! The top call.
ghost use Rattle.std.specs.Prelude.{◌≡◌, ◌⊎◌};
ghost use Rattle.sto_console.specs.Told.{Rose};
ghost use Rattle.sto_args.specs.Asked.{checking_in};
ghost use Rattle.sto_checker.specs.declared.found.Found.TheVariants as found;
ghost use Rattle.sto_console.specs.Said.{Says};
ghost use Rattle.sto_console.specs.Statuses.{status_of, line_of, EndsWith};
ghost use Rattle.sto_console.specs.Ends.{Ends};
ghost use Rattle.sto_console.specs.Outcomes.{IsDone};
ghost use Rattle.sto_console.specs.Causes.{HasCauses};
ghost use Rattle.sto_check_cli.specs.Programs.{program, found_status};
ghost use Rattle.sto_check_cli.specs.Findings.{IsWrong, IsToldFound};

use crate::work::perform;
use std::alloc::Global;
use sto_checker::Found;
use sto_console::{Refusal, Sink, Source, say};

fn status(outcome: Result<Found, Refusal>) -> u8
    ensures { result ≡ status_of found_status outcome }
{
    match outcome {
        Ok(Found::Lawful) => 0,
        Ok(Found::Not { .. }) => 1,
        Err(refusal) => refusal.status(),
    }
}

/// All that the program does with the words after its name: it reads a script, a line `report` and a report in the form of
/// text, and prints whether the report is lawful for the script and the tries, or else the first line that is not right. It
/// gives the exit status.
///
/// | Status | When | `out` gains | `diag` gains |
/// |---|---|---|---|
/// | 0 | the report is lawful | `lawful` | nothing |
/// | 1 | it goes wrong at line N | `line N` | nothing |
/// | 2 | the words are not in the grammar | nothing | `sto: usage` |
/// | 3 | the bytes that were read are too many, have no line `report`, or have a fault before it | nothing | `sto: line L: KIND` |
/// | 4 | the source failed | nothing | `sto: read fault` |
/// | 5 | `out` failed | a front of its line | `sto: write fault` |
/// | 6 | memory could not be had | nothing | `sto: out of memory` |
pub fn check<S: Source, K: Sink, E: Sink>(
    alloc: Global,
    words: &[String],
    source: &mut S,
    out: &mut K,
    diag: &mut E,
) -> u8
    // With status 0 or 1 all of the input was read, and what was found of the report in it is what was written; no other is right.
    ensures lawful { result ≡ 0
        → IsDone program found.Lawful (checking_in words.now) (S.left source.old) (S.left source.new) (K.held out.old) (K.held out.new) }
    ensures wrong { result ≡ 1 → IsWrong (checking_in words.now) (S.left source.old) (S.left source.new) (K.held out.old) (K.held out.new) }
    // What is so of the report is what is written.
    ensures exact { (found : Found) → IsToldFound found (checking_in words.now) (S.left source.old) (S.left source.new)
        → (Rose (S.faults source.old) (S.faults source.new) → ⊥) → (Rose (K.faults out.old) (K.faults out.new) → ⊥)
        → (result ≡ found_status found) ⊎ (result ≡ 6) }
    // One outcome has this status and these effects, and its line is written beside.
    ensures ends { EndsWith found_status result (λ outcome.
        Ends program outcome (checking_in words.now) (S.left source.old) (S.left source.new) (K.held out.old) (K.held out.new)
        × Says (line_of outcome) (E.held diag.old) (E.held diag.new) (E.faults diag.old) (E.faults diag.new)) }
    // What follows: the cause of each status, and what stays as it was.
    ensures causes { HasCauses program found_status result (checking_in words.now) (S.left source.old) (S.left source.new)
        (K.held out.old) (K.held out.new) (S.faults source.old) (S.faults source.new) (K.faults out.old) (K.faults out.new) }
{
    let outcome = perform(alloc, words, source, out);
    status(say(alloc, diag, outcome))
}
