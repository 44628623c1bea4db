//! What the worker tells its feeder.
use std::sync::atomic::{AtomicUsize, Ordering};

/// How many jobs were taken, and how often the worker was woken.
#[derive(Drop)]
pub struct Seen {
    taken: AtomicUsize,
    woken: AtomicUsize,
}

impl Seen {
    /// Nothing yet.
    pub fn new() -> Seen {
        Seen {
            taken: AtomicUsize::new(0),
            woken: AtomicUsize::new(0),
        }
    }

    /// A job was taken.
    pub fn add_taken(&self) {
        self.taken.fetch_add(1, Ordering::SeqCst);
    }

    /// The worker was woken.
    pub fn add_woken(&self) {
        self.woken.fetch_add(1, Ordering::SeqCst);
    }

    /// How many jobs were taken.
    pub fn taken(&self) -> usize {
        self.taken.load(Ordering::SeqCst)
    }

    /// How often the worker was woken.
    pub fn woken(&self) -> usize {
        self.woken.load(Ordering::SeqCst)
    }
}
