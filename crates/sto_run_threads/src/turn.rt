//! What the workers of a run tell one another.
use std::sync::atomic::{AtomicBool, Ordering};
use std::sync::{Mutex, MutexGuard};
use sto_part::NoMemory;

/// The turn of transactions that were aborted: of those that share it one is tried at a time, beside others that take none. So where all
/// transactions disturb each other, few are tried in vain, and where none do, none waits. Who looks for it often enough in vain goes on
/// without it, so nothing stands on who has it.
///
/// Adaptive transaction scheduling (R. M. Yoo and H.-H. S. Lee, SPAA 2008) with a contention of 0 before the first abort and
/// of 1 after it.
///
/// With it workers tell each other that memory is wanting.
#[derive(Drop)]
pub struct RetryTurn {
    free: Mutex<()>,
    // Whether memory was wanting for a worker.
    wanting: AtomicBool,
}

/// Who holds it has the turn.
pub(crate) type HeldTurn<'t> = MutexGuard<'t, ()>;

impl RetryTurn {
    /// A turn that nobody has.
    pub fn new() -> RetryTurn {
        RetryTurn {
            free: Mutex::new(()),
            wanting: AtomicBool::new(false),
        }
    }

    /// Takes the turn; none where it is not free.
    pub(crate) fn take(&self) -> Option<HeldTurn<'_>> {
        self.free.try_lock()
    }

    /// Tells all workers where memory was wanting for this, so that none begins a transaction any more.
    pub(crate) fn note<X>(&self, made: &Result<X, NoMemory>) {
        if made.is_err() {
            self.wanting.store(true, Ordering::Relaxed);
        }
    }

    /// Whether memory was wanting for a worker.
    pub(crate) fn is_stopped(&self) -> bool {
        self.wanting.load(Ordering::Relaxed)
    }
}
