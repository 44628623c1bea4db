//! Outcomes as reports.
ghost use Rattle.std.specs.Prelude.{◌≡◌};
ghost use Rattle.sto_run_orders.specs.Reports.{entries_in};

use sto_lang::{Text, Turns};
use sto_model::State;

/// What some orders of a file's transactions lead to: a report that tells it, the schedule of a run that leaves this report, where one was
/// found, the final state that the report tells, and how many orders they are. None stands for 2^64 orders and more.
#[derive(Drop)]
pub struct OrderReport {
    pub report: Text,
    pub schedule: Option<Vec<Turns>>,
    pub state: State,
    pub orders: Option<u64>,
}

impl OrderReport {
    /// The entries of the schedule; none where there is no schedule.
    pub fn entries(&self) -> &[Turns]
        ensures { result.now ≡ entries_in self.now.schedule }
    {
        match &self.schedule {
            Some(entries) => entries.as_slice(),
            None => &[],
        }
    }
}
