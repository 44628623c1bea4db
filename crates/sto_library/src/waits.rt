//! What a worker does between two attempts.
use crossbeam_utils::Backoff;
use sto_transaction::AttemptWatch;

/// Waits a little before an attempt is made again: longer each time, and from some time on it lets other threads go first.
#[derive(Drop)]
pub struct Waits {
    backoff: Backoff,
}

impl Waits {
    /// Waits that begin short.
    pub fn new() -> Waits {
        Waits {
            backoff: Backoff::new(),
        }
    }
}

impl AttemptWatch for Waits {
    fn before_event(&mut self, _events: u64) {}

    fn before_retry(&mut self) {
        self.backoff.snooze();
    }
}
