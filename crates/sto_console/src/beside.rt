//! The line beside the output.
ghost use Rattle.std.specs.Prelude.{◌≡◌, ◌⊎◌, Some, IfOk, string_bytes};
ghost use Rattle.sto_console.specs.declared.refusal.Refusal.TheVariants.{NoMemory};
ghost use Rattle.sto_console.specs.Said.{fault_line, count_text, schedules_line, states_text, states_line, schedule_line, question_line, Says};
ghost use Rattle.sto_console.specs.Statuses.{refusal_line, line_of, IsFixed, IsRefusedSo, EndsSo};

use crate::refusal::{InputFault, Refusal, ScheduleCounts, StateCount};
use crate::stream::Sink;
use crate::whole::write_all;
use std::alloc::{AllocError, Global};
use std::fmt;
use sto_lang::{FaultKind, ScriptFault};
use sto_question::QuestionFault;

/// The line of a fault of a script.
pub fn fault_line(alloc: Global, fault: ScriptFault) -> Result<String, AllocError>
    ensures { IfOk result (λ text. string_bytes text ≡ fault_line fault) }
{
    let ScriptFault { line, kind } = fault;
    format!(in alloc; "sto: line {line}: {kind}\n")
}

// How many schedules there are, as it is told.
#[derive(Clone, Copy)]
struct Count(Option<u64>);

impl fmt::Display for Count {
    ghost output = { λ count. Some (count_text count.0) };

    fn fmt<W: fmt::Write>(&self, f: &mut fmt::Formatter<W>) -> fmt::Result {
        match self.0 {
            Some(number) => write!(f, "{number}"),
            None => write!(f, "more than 1000000"),
        }
    }
}

/// The line of a script that has too many schedules.
pub fn schedules_line(alloc: Global, counts: ScheduleCounts) -> Result<String, AllocError>
    ensures { IfOk result (λ text. string_bytes text ≡ schedules_line counts) }
{
    let none = Count(counts.none);
    let one = Count(counts.one);
    let two = Count(counts.two);
    format!(in alloc;
        "sto: line 0: too many schedules: {none} at 0 switches, {one} at 1, {two} at 2\n"
    )
}

// How many nodes are needed, as it is told.
#[derive(Clone, Copy)]
struct States(StateCount);

impl fmt::Display for States {
    ghost output = { λ states. Some (states_text states.0) };

    fn fmt<W: fmt::Write>(&self, f: &mut fmt::Formatter<W>) -> fmt::Result {
        match self.0 {
            StateCount::AtLeast(number) => write!(f, "at least {number}"),
            StateCount::MoreThan(number) => write!(f, "more than {number}"),
        }
    }
}

/// The line of a script whose orders need too many nodes.
pub fn states_line(alloc: Global, count: StateCount) -> Result<String, AllocError>
    ensures { IfOk result (λ text. string_bytes text ≡ states_line count) }
{
    let states = States(count);
    format!(in alloc; "sto: line 0: too many states: {states}\n")
}

/// The line of a schedule that the script could not have.
pub fn schedule_line(alloc: Global, kind: FaultKind) -> Result<String, AllocError>
    ensures { IfOk result (λ text. string_bytes text ≡ schedule_line kind) }
{
    format!(in alloc; "sto: schedule: {kind}\n")
}

/// The line of words that are no question for the script.
pub fn question_line(alloc: Global, fault: QuestionFault) -> Result<String, AllocError>
    ensures { IfOk result (λ text. string_bytes text ≡ question_line fault) }
{
    format!(in alloc; "sto: question: {fault}\n")
}

// The line of a refusal whose line is always the same.
fn fixed_line(refusal: Refusal) -> &'static [u8]
    requires { IsFixed refusal }
    ensures { result.now ≡ refusal_line refusal }
{
    match refusal {
        Refusal::Usage => b"sto: usage\n",
        Refusal::Input(
            InputFault::Script(_)
            | InputFault::ManySchedules(_)
            | InputFault::ManyStates(_)
            | InputFault::Schedule(_)
            | InputFault::Question(_),
        ) => unreachable!(),
        Refusal::Input(InputFault::NoReport) => b"sto: line 0: no report\n",
        Refusal::Input(InputFault::LongTrace) => b"sto: line 0: too many transactions\n",
        Refusal::Input(InputFault::LongRun) => b"sto: line 0: too many events\n",
        Refusal::ReadFault => b"sto: read fault\n",
        Refusal::WriteFault => b"sto: write fault\n",
        Refusal::NoMemory => b"sto: out of memory\n",
    }
}

/// Writes a line beside. A fault of the sink changes nothing else.
pub fn write_line<E: Sink>(diag: &mut E, line: &[u8])
    ensures { Says line.now (E.held diag.old) (E.held diag.new) (E.faults diag.old) (E.faults diag.new) }
{
    let _ = write_all(diag, line);
}

// Says beside why a call was refused, by a line that was made for it. Where there is no memory for one, it is refused for that.
fn say_made<E: Sink>(diag: &mut E, refusal: Refusal, line: Result<String, AllocError>) -> Refusal
    requires { IfOk line (λ text. string_bytes text ≡ refusal_line refusal) }
    ensures same { (result ≡ refusal) ⊎ (result ≡ NoMemory) }
    ensures says { Says (refusal_line result) (E.held diag.old) (E.held diag.new) (E.faults diag.old) (E.faults diag.new) }
{
    let Ok(line) = line else {
        write_line(diag, fixed_line(Refusal::NoMemory));
        return Refusal::NoMemory;
    };
    write_line(diag, line.as_bytes());
    refusal
}

/// Says beside why a call was refused. Where there is no memory for the line of a fault, it is refused for that. A fault of the
/// sink changes nothing else.
pub fn say_refusal<E: Sink>(alloc: Global, diag: &mut E, refusal: Refusal) -> Refusal
    ensures same { IsRefusedSo refusal result }
    ensures says { Says (refusal_line result) (E.held diag.old) (E.held diag.new) (E.faults diag.old) (E.faults diag.new) }
{
    match refusal {
        Refusal::Input(InputFault::Script(fault)) => {
            say_made(diag, refusal, fault_line(alloc, fault))
        }
        Refusal::Input(InputFault::ManySchedules(counts)) => {
            say_made(diag, refusal, schedules_line(alloc, counts))
        }
        Refusal::Input(InputFault::ManyStates(count)) => {
            say_made(diag, refusal, states_line(alloc, count))
        }
        Refusal::Input(InputFault::Schedule(kind)) => {
            say_made(diag, refusal, schedule_line(alloc, kind))
        }
        Refusal::Input(InputFault::Question(fault)) => {
            say_made(diag, refusal, question_line(alloc, fault))
        }
        _ => {
            write_line(diag, fixed_line(refusal));
            refusal
        }
    }
}

/// Says beside how a call ended: nothing where it was answered, and else why it was refused.
#[tactic(auto, using(crate::proofs::Saying::nothing_said))]
pub fn say<A, E: Sink>(
    alloc: Global,
    diag: &mut E,
    outcome: Result<A, Refusal>,
) -> Result<A, Refusal>
    ensures same { EndsSo outcome result }
    ensures says { Says (line_of result) (E.held diag.old) (E.held diag.new) (E.faults diag.old) (E.faults diag.new) }
{
    match outcome {
        Ok(answer) => Ok(answer),
        Err(refusal) => Err(say_refusal(alloc, diag, refusal)),
    }
}
