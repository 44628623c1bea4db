//! What a function answers, as include/sto.h has it.
ghost use Rattle.std.specs.Prelude.{◌≡◌};
ghost use Rattle.sto_c.specs.Statuses.{number, number_of, of_unplanned, of_unopened, of_unasked};

use sto_interactive::AskError;
use sto_shared_store::{OpenError, PlanError};

/// Why a call was not done.
#[derive(Clone, Copy, PartialEq, Eq, Debug)]
pub enum Status {
    NoMemory,
    Empty,
    Taken,
    OtherHandle,
    NoObject,
    NoCall,
    InTransaction,
    NoTransaction,
    Aborted,
    Busy,
    NoTickets,
    NoWorker,
    BadWorkers,
    BadKind,
    BadOrder,
    BadSize,
    TooMany,
    NoRoom,
    WorkersOut,
    BadNumbers,
}

impl Status {
    /// Its number; 0 is that of a call that was done.
    pub(crate) fn number(self) -> u32
        ensures { result ≡ number self }
    {
        match self {
            Status::NoMemory => 1,
            Status::Empty => 2,
            Status::Taken => 3,
            Status::OtherHandle => 4,
            Status::NoObject => 5,
            Status::NoCall => 6,
            Status::InTransaction => 7,
            Status::NoTransaction => 8,
            Status::Aborted => 9,
            Status::Busy => 10,
            Status::NoTickets => 11,
            Status::NoWorker => 12,
            Status::BadWorkers => 13,
            Status::BadKind => 14,
            Status::BadOrder => 15,
            Status::BadSize => 16,
            Status::TooMany => 17,
            Status::NoRoom => 18,
            Status::WorkersOut => 19,
            Status::BadNumbers => 20,
        }
    }
}

/// The number of what a call led to.
pub(crate) fn number_of(done: Result<(), Status>) -> u32
    ensures { result ≡ number_of done }
{
    match done {
        Ok(()) => 0,
        Err(status) => status.number(),
    }
}

impl From<PlanError> for Status {
    ghost from_gives = { λ error status. status ≡ of_unplanned error };

    fn from(error: PlanError) -> Status {
        match error {
            PlanError::OutOfOrder => Status::BadOrder,
            PlanError::NoRoom => Status::BadSize,
            PlanError::TooMany => Status::TooMany,
            PlanError::NoMemory => Status::NoMemory,
        }
    }
}

impl From<OpenError> for Status {
    ghost from_gives = { λ error status. status ≡ of_unopened error };

    fn from(error: OpenError) -> Status {
        match error {
            OpenError::Workers => Status::BadWorkers,
            OpenError::NoMemory => Status::NoMemory,
        }
    }
}

impl From<AskError> for Status {
    ghost from_gives = { λ error status. status ≡ of_unasked error };

    fn from(error: AskError) -> Status {
        match error {
            AskError::NoTransaction => Status::NoTransaction,
            AskError::Untaken => Status::NoCall,
            AskError::Aborted => Status::Aborted,
            AskError::NoMemory => Status::NoMemory,
        }
    }
}
