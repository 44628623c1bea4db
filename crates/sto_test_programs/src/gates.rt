//! Gates that hold one worker until another has come to some place.
use std::hint;
use std::sync::atomic::{AtomicBool, AtomicU32, Ordering};
use sto_cli::Gate;

// After so many turns a gate holds nobody any more, so that each run ends.
const TURNS: u32 = 100_000_000;

/// Holds the first transaction of thread 0 after so many events, until that of thread 1 has ended; and that of thread 1 until
/// then.
#[derive(Drop)]
pub struct Middle {
    events: u64,
    read: AtomicBool,
    ended: AtomicBool,
}

impl Middle {
    /// A gate that holds after these events, with which the transaction has read.
    pub fn new(events: u64) -> Self {
        Middle {
            events,
            read: AtomicBool::new(false),
            ended: AtomicBool::new(false),
        }
    }

    /// Whether the read and the end were seen.
    pub fn has_seen_both(&self) -> bool {
        self.read.load(Ordering::SeqCst) && self.ended.load(Ordering::SeqCst)
    }
}

fn wait_for(seen: &AtomicBool) {
    for _ in 0..TURNS {
        if seen.load(Ordering::SeqCst) {
            return;
        }
        hint::spin_loop();
    }
}

impl Gate for Middle {
    fn before(&self, thread: u32, position: u32) {
        if (thread, position) == (1, 1) {
            wait_for(&self.read);
        }
    }

    fn during(&self, thread: u32, position: u32, events: u64) {
        if (thread, position, events) == (0, 1, self.events) {
            self.read.store(true, Ordering::SeqCst);
            wait_for(&self.ended);
        }
    }

    fn after(&self, thread: u32, position: u32) {
        if (thread, position) == (1, 1) {
            self.ended.store(true, Ordering::SeqCst);
        }
    }
}

/// Holds the transaction of thread 0 until those of three other threads have ended.
#[derive(Drop)]
pub struct Others {
    ended: AtomicU32,
    in_time: AtomicBool,
}

impl Others {
    pub fn new() -> Self {
        Others {
            ended: AtomicU32::new(0),
            in_time: AtomicBool::new(false),
        }
    }

    /// Whether the others ended while it was held.
    pub fn has_seen_all(&self) -> bool {
        self.in_time.load(Ordering::SeqCst)
    }
}

impl Gate for Others {
    fn before(&self, thread: u32, _position: u32) {
        if thread != 0 {
            return;
        }
        for _ in 0..TURNS {
            if self.ended.load(Ordering::SeqCst) == 3 {
                self.in_time.store(true, Ordering::SeqCst);
                return;
            }
            hint::spin_loop();
        }
    }

    fn during(&self, _thread: u32, _position: u32, _events: u64) {}

    fn after(&self, thread: u32, _position: u32) {
        if thread != 0 {
            self.ended.fetch_add(1, Ordering::SeqCst);
        }
    }
}

/// Counts the transactions that have ended.
#[derive(Drop)]
pub struct Ends {
    ended: AtomicU32,
}

impl Ends {
    pub fn new() -> Self {
        Ends {
            ended: AtomicU32::new(0),
        }
    }

    /// How many have ended.
    pub fn count(&self) -> u32 {
        self.ended.load(Ordering::SeqCst)
    }
}

impl Gate for Ends {
    fn before(&self, _thread: u32, _position: u32) {}

    fn during(&self, _thread: u32, _position: u32, _events: u64) {}

    fn after(&self, _thread: u32, _position: u32) {
        self.ended.fetch_add(1, Ordering::SeqCst);
    }
}
