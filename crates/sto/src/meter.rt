//! What tells who waits at a terminal how far an exploration is.
use std::cell::Cell;
use std::io::IsTerminal;
use sto_cli::Meter;

// After how many runs a line is written.
const BETWEEN: u64 = 100_000;

/// Writes a line to standard error after each 100,000 runs, where that is a terminal.
#[derive(Drop)]
pub struct TerminalMeter<'rt> {
    rt: &'rt HostRuntime,
    made: Cell<u64>,
    is_seen: bool,
}

impl<'rt> TerminalMeter<'rt> {
    /// No run was made so far.
    pub fn new(rt: &'rt HostRuntime) -> TerminalMeter<'rt> {
        TerminalMeter {
            rt,
            made: Cell::new(0),
            is_seen: rt.stderr().is_terminal(),
        }
    }
}

impl Meter for TerminalMeter<'_> {
    fn made(&self) {
        let made = self.made.get().saturating_add(1);
        self.made.set(made);
        if self.is_seen && made % BETWEEN == 0 {
            // Where the terminal takes no more, the exploration goes on.
            let _ = eprintln!(self.rt; "sto: {made} schedules");
        }
    }
}
