//! Why nothing, or not all, was printed.
ghost use Rattle.std.specs.Prelude.{◌≡◌};
ghost use Rattle.sto_console.specs.declared.refusal.Refusal.TheVariants.{NoMemory};
ghost use Rattle.sto_console.specs.Statuses.{status_of, done_status, refusal_status};

use std::alloc::AllocError;
use sto_lang::{FaultKind, ScriptFault};
use sto_question::QuestionFault;

/// How many schedules a script has with at most no, one and two switches; `None` where they are more than 1,000,000.
#[derive(Clone, Copy, PartialEq, Eq)]
pub struct ScheduleCounts {
    pub none: Option<u64>,
    pub one: Option<u64>,
    pub two: Option<u64>,
}

/// How many nodes the orders of a script need where they are too many: at least so many, where 2^64 - 1 stands for more, too; or more than
/// so many, which there may be.
#[derive(Clone, Copy, PartialEq, Eq)]
pub enum StateCount {
    AtLeast(u64),
    MoreThan(u64),
}

/// What is wrong with the bytes that were read, or with words that are read beside them.
#[derive(Clone, Copy, PartialEq, Eq)]
pub enum InputFault {
    /// They are too many, or no script stands where one must.
    Script(ScriptFault),
    /// A report must follow the script, and no line is `report`.
    NoReport,
    /// A trace or a picture is asked, and the script has too many transactions for one.
    LongTrace,
    /// The same, and a run of the script has too many events for one.
    LongRun,
    /// Every outcome is asked, and the script has too many schedules for that.
    ManySchedules(ScheduleCounts),
    /// What all orders lead to is asked, and they need too many nodes.
    ManyStates(StateCount),
    /// The words have a schedule, and the script could not have it on a line, which would have this fault.
    Schedule(FaultKind),
    /// Outcomes are asked for by words that are no question for the script.
    Question(QuestionFault),
}

/// Why a call of a program was refused.
#[derive(Clone, Copy, PartialEq, Eq)]
pub enum Refusal {
    /// The words are not in the grammar.
    Usage,
    /// The bytes that were read have a fault.
    Input(InputFault),
    /// The source failed.
    ReadFault,
    /// The output failed.
    WriteFault,
    /// Memory could not be had.
    NoMemory,
}

impl From<AllocError> for Refusal {
    ghost from_gives = { λ _ e. e ≡ NoMemory };

    fn from(_: AllocError) -> Self {
        Refusal::NoMemory
    }
}

impl From<sto_part::NoMemory> for Refusal {
    ghost from_gives = { λ _ e. e ≡ NoMemory };

    fn from(_: sto_part::NoMemory) -> Self {
        Refusal::NoMemory
    }
}

impl Refusal {
    /// The exit status of a call that was refused so.
    pub fn status(self) -> u8
        ensures { result ≡ refusal_status self }
    {
        match self {
            Refusal::Usage => 2,
            Refusal::Input(_) => 3,
            Refusal::ReadFault => 4,
            Refusal::WriteFault => 5,
            Refusal::NoMemory => 6,
        }
    }
}

/// The exit status of a call that ended so: 0 where all is done.
pub fn status(outcome: Result<(), Refusal>) -> u8
    ensures { result ≡ status_of done_status outcome }
{
    match outcome {
        Ok(()) => 0,
        Err(refusal) => refusal.status(),
    }
}
