//! How a report was led to so far.
ghost use Rattle.std.specs.Prelude.{OnOk};
ghost use Rattle.sto_explore.specs.Tallied.{HasOneMore};

use crate::leg::Leg;
use sto_part::NoMemory;

/// How many schedules led to a report, and the legs of the first of those with the fewest.
#[derive(Drop)]
pub(crate) struct Way {
    pub(crate) schedules: u64,
    pub(crate) legs: Vec<Leg>,
}

impl Way {
    /// One schedule more. `NoMemory` comes where there would be 2^64 of them.
    pub(crate) fn add(&mut self, legs: Vec<Leg>) -> Result<(), NoMemory>
        ensures { OnOk result (HasOneMore self.old legs.items self.new) }
    {
        match self.schedules.checked_add(1) {
            Some(schedules) => self.schedules = schedules,
            None => return Err(NoMemory),
        }
        if legs.len() < self.legs.len() {
            self.legs = legs;
        }
        Ok(())
    }
}
