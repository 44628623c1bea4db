//! The scripts that can be traced, and the text of `trace`: a line for each event of a run.
ghost use Rattle.std.specs.Prelude.{◌≡◌, map, string_bytes, None, Some, IfOk, IfErr};
ghost use Rattle.sto_args.specs.declared.command.Command.TheVariants as commands;
ghost use Rattle.sto_console.specs.declared.refusal.InputFault.TheVariants.{LongRun};
ghost use Rattle.sto_lang.specs.Drafts.{transaction_count};
ghost use Rattle.sto_lang.specs.Sound.{IsSound, IsFromTo};
ghost use Rattle.sto_lang.specs.Views.{file as view};
ghost use Rattle.sto_journal.specs.Journals.{home_pair};
ghost use Rattle.sto_run.specs.Logged.{kept};
ghost use Rattle.sto_trace_text.specs.Named.{named};
ghost use Rattle.sto_cli.specs.Traces.{IsTraceable, IsTraceFault, HasLongRun, IsRunFault, NeverMany, IsRefusalFor, lines_in, AreLinesOf};
ghost use Rattle.sto_cli.specs.Outputs.{IsOutput};

use crate::script::scheduled_in;
use std::alloc::Global;
use sto_args::GivenText;
use sto_console::{InputFault, Refusal};
use sto_lang::{File, Text};
use sto_part::NoMemory;
use sto_run::{TracedRun, trace_file};
use sto_trace::Step;
use sto_trace_text::{Names, trace_json};
use sto_type::Home;

// How many transactions a script may have that is traced, drawn or explored.
const MOST_TRACED: u32 = 256;

// How many transactions a file has.
fn transactions_of(file: &File) -> u32
    requires { IsSound (view file.now) }
    ensures { result ≡ transaction_count (view file.now).threads }
{
    let mut count = 0;
    for thread in file.threads.as_slice() {
        count += thread.scripts.len();
    }
    count
}

/// The script that these bytes are, with the schedule of the words where there are words, if it can be traced.
pub(crate) fn traceable_in(
    alloc: Global,
    bytes: &[u8],
    schedule: &Option<GivenText>,
) -> Result<File, Refusal>
    ensures file { IfOk result (λ file. IsTraceable schedule.now bytes.now (view file)) }
    ensures sound { IfOk result (λ file. IsSound (view file)) }
    ensures fault { IfErr result (λ e. IsRefusalFor (IsTraceFault schedule.now bytes.now) e) }
{
    let file = scheduled_in(alloc, bytes, schedule)?;
    let count = transactions_of(&file);
    if count > MOST_TRACED {
        return Err(Refusal::Input(InputFault::LongTrace));
    }
    Ok(file)
}

// The lines of these steps, each of JSON or of text.
fn lines_by(
    alloc: Global,
    names: &Names<'_>,
    steps: &[Step],
    json: bool,
) -> Result<String, NoMemory>
    requires { IsSound (view names.now.file.now) }
    ensures { IfOk result (λ text. string_bytes text ≡ lines_in json (named names.now) steps.now) }
{
    if json {
        return trace_json(alloc, names, steps);
    }
    sto_trace_text::trace_text(alloc, names, steps)
}

// The lines of these steps of a run of a file, with these homes of parts.
fn text_of(
    alloc: Global,
    file: &File,
    homes: &[Home],
    steps: &[Step],
    json: bool,
) -> Result<Text, NoMemory>
    requires { IsSound (view file.now) }
    ensures { IfOk result (λ text. AreLinesOf json (view file.now) (map home_pair homes.now) (Some steps.now) text.items) }
{
    let names = Names { file, homes };
    let text = lines_by(alloc, &names, steps, json)?;
    Text::of_string(text)
}

// The lines of the steps of a run of a file; where they were too many to be kept, the run is too long.
fn lines_of(alloc: Global, file: &File, run: &TracedRun, json: bool) -> Result<Text, Refusal>
    requires { IsSound (view file.now) }
    ensures text { IfOk result (λ text. AreLinesOf json (view file.now) (map home_pair run.now.homes.items) (kept run.now.steps) text.items) }
    ensures fault { IfErr result (λ e. IsRefusalFor (λ fault. (fault ≡ LongRun) × (kept run.now.steps ≡ None)) e) }
{
    match &run.steps {
        Some(steps) => Ok(text_of(alloc, file, run.homes.as_slice(), steps.as_slice(), json)?),
        None => Err(Refusal::Input(InputFault::LongRun)),
    }
}

/// What `trace` prints for these bytes, by the schedule of the words, where there are words.
pub(crate) fn trace_text(
    alloc: Global,
    bytes: &[u8],
    tries: u32,
    json: bool,
    schedule: &Option<GivenText>,
) -> Result<Text, Refusal>
    requires { IsFromTo 1 64 tries }
    ensures text { IfOk result (λ text. IsOutput (commands.Trace tries json schedule.now) bytes.now text.items) }
    ensures fault { IfErr result (λ e. IsRefusalFor (IsRunFault (HasLongRun tries) NeverMany schedule.now bytes.now) e) }
{
    let file = traceable_in(alloc, bytes, schedule)?;
    let run = trace_file(alloc, &file, tries)?;
    lines_of(alloc, &file, &run, json)
}
