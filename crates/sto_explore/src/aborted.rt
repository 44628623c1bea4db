//! Counts of aborted attempts.
ghost use Rattle.std.specs.Prelude.{◌≡◌, ◌+◌, IfOk};

use sto_part::NoMemory;

/// How many attempts were aborted, by cause: a part was locked, or it was changed.
#[derive(Clone, Copy, PartialEq, Eq)]
pub struct Aborted {
    pub locked: u64,
    pub changed: u64,
}

impl Aborted {
    /// None.
    pub fn none() -> Aborted
        ensures { result ≡ record { locked = 0; changed = 0 } }
    {
        Aborted {
            locked: 0,
            changed: 0,
        }
    }

    /// These and others. `NoMemory` comes where one of the sums would be 2^64 or more.
    pub fn and(self, others: Aborted) -> Result<Aborted, NoMemory>
        ensures { IfOk result (λ sum. sum ≡ record { locked = self.locked + others.locked; changed = self.changed + others.changed }) }
    {
        match (
            self.locked.checked_add(others.locked),
            self.changed.checked_add(others.changed),
        ) {
            (Some(locked), Some(changed)) => Ok(Aborted { locked, changed }),
            _ => Err(NoMemory),
        }
    }
}
