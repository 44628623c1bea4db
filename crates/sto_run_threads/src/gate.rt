//! What is called around each transaction.
use std::thread;
use std::time::{Clock, Duration};

/// Is told where the workers are: before and after each transaction, and before each event of an attempt. A gate may hold
/// a worker there, and says how one waits. It changes nothing else.
pub trait Gate: Sync {
    /// A transaction is about to be run.
    fn before(&self, thread: u32, position: u32);

    /// An attempt of the transaction is about to make an event, after so many.
    fn during(&self, thread: u32, position: u32, events: u64);

    /// The transaction has ended.
    fn after(&self, thread: u32, position: u32);

    /// A worker waits for others, and looks again after this.
    fn pause(&self) {
        thread::yield_now();
    }
}

/// Holds nobody.
pub struct NoGate;

impl Gate for NoGate {
    fn before(&self, _thread: u32, _position: u32) {}

    fn during(&self, _thread: u32, _position: u32, _events: u64) {}

    fn after(&self, _thread: u32, _position: u32) {}
}

// For how many microseconds a worker sleeps between two looks.
const NAP: u64 = 800;

/// Holds nobody, and lets a worker that waits sleep, so that it takes no processor.
#[derive(Drop)]
pub struct SleepingGate<'c, C> {
    clock: &'c C,
}

impl<'c, C: Clock> SleepingGate<'c, C> {
    /// A gate whose workers sleep by this clock.
    pub fn new(clock: &'c C) -> SleepingGate<'c, C> {
        SleepingGate { clock }
    }
}

impl<C: Clock + Sync> Gate for SleepingGate<'_, C> {
    fn before(&self, _thread: u32, _position: u32) {}

    fn during(&self, _thread: u32, _position: u32, _events: u64) {}

    fn after(&self, _thread: u32, _position: u32) {}

    fn pause(&self) {
        thread::sleep(self.clock, Duration::from_micros(NAP));
    }
}
