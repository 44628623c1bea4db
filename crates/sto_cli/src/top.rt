//! The top call.
ghost use Rattle.std.specs.Prelude.{◌≡◌, map, string_bytes};
ghost use Rattle.sto_args.specs.Commands.{command_in};
ghost use Rattle.sto_args.specs.HelpPages.{help_words};
ghost use Rattle.sto_args.specs.declared.help.HelpPage.{HelpPage};
ghost use Rattle.sto_console.specs.Said.{Says};
ghost use Rattle.sto_console.specs.Statuses.{status_of, line_of, EndsWith};
ghost use Rattle.sto_console.specs.Ends.{Ends};
ghost use Rattle.sto_console.specs.Outcomes.{IsDone};
ghost use Rattle.sto_console.specs.Causes.{HasCauses};
ghost use Rattle.sto_cli.specs.Helps.{IsHelped};
ghost use Rattle.sto_cli.specs.Programs.{program, answer_status};
ghost use Rattle.sto_cli.specs.declared.told.Answer.TheVariants as answers;

use crate::told::Answer;
use crate::work::perform;
use std::alloc::Global;
use std::thread::Threads;
use sto_console::{Refusal, Sink, Source, say};
use sto_run::Gate;
use sto_run_schedules::Meter;

fn status(outcome: Result<Answer, Refusal>) -> u8
    ensures { result ≡ status_of answer_status outcome }
{
    match outcome {
        Ok(Answer::Done) => 0,
        Ok(Answer::Found) => 1,
        Err(refusal) => refusal.status(),
    }
}

/// All that the program does with the words after its name. It gives the exit status. The gate is told of the workers of `run` and `bench`, and
/// the meter of each run of `schedules`.
///
/// | Status | When | `out` gains | `diag` gains |
/// |---|---|---|---|
/// | 0 | all is done | the whole text | nothing |
/// | 1 | all is done, and `explore` found an outcome that must never be | the whole text | nothing |
/// | 2 | the words are not in the grammar | nothing | `sto: usage` |
/// | 3 | the bytes that were read have a fault | nothing | `sto: line L: KIND` |
/// | 3 | the words have a schedule or a question that is none for the script | nothing | `sto: schedule: KIND`, `sto: question: KIND` |
/// | 4 | the source failed | nothing | `sto: read fault` |
/// | 5 | `out` failed | a front of the text | `sto: write fault` |
/// | 6 | memory could not be had | nothing | `sto: out of memory` |
pub fn sto<R: Threads + Sync, S: Source, K: Sink, E: Sink, G: Gate, W: Meter>(
    rt: &R,
    alloc: Global,
    words: &[String],
    source: &mut S,
    out: &mut K,
    diag: &mut E,
    gate: &G,
    meter: &W,
) -> u8
    // The headline: with status 0 all of the input was read, and exactly one text was written, one that the words ask for.
    ensures headline { result ≡ 0
        → IsDone program answers.Done (command_in words.now) (S.left source.old) (S.left source.new) (K.held out.old) (K.held out.new) }
    // With status 1 the same is so, and an outcome was found that must never be.
    ensures found { result ≡ 1
        → IsDone program answers.Found (command_in words.now) (S.left source.old) (S.left source.new) (K.held out.old) (K.held out.new) }
    // With the words that ask for a page of help, that page alone was written, and nothing was read.
    ensures help { (page : HelpPage) → map (λ word. string_bytes word) words.now ≡ help_words page
        → IsHelped page result (S.left source.old) (S.left source.new) (K.held out.old) (K.held out.new) }
    // One outcome has this status and these effects, and its line is written beside.
    ensures ends { EndsWith answer_status result (λ outcome.
        Ends program outcome (command_in words.now) (S.left source.old) (S.left source.new) (K.held out.old) (K.held out.new)
        × Says (line_of outcome) (E.held diag.old) (E.held diag.new) (E.faults diag.old) (E.faults diag.new)) }
    // What follows: the cause of each status, and what stays as it was.
    ensures causes { HasCauses program answer_status result (command_in words.now) (S.left source.old) (S.left source.new)
        (K.held out.old) (K.held out.new) (S.faults source.old) (S.faults source.new) (K.faults out.old) (K.faults out.new) }
{
    let outcome = perform(rt, alloc, words, source, out, gate, meter);
    status(say(alloc, diag, outcome))
}
