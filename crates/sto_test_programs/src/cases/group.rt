//! Cases of one kind.
use crate::calls::{Call, Failing};
use crate::cases::ending::Ending;
use std::io;
use std::sync::Wait;
use std::thread::Threads;

/// Counts the cases of a group, and tells of those that do not hold.
#[derive(Drop)]
pub struct Group<'a, R> {
    pub rt: &'a HostRuntime,
    pub threads: &'a R,
    pub name: &'a str,
    /// How many there were.
    pub cases: u32,
}

impl<R: Threads + Wait + Sync> Group<'_, R> {
    /// Counts a case, and tells of it where it does not hold.
    pub fn add(&mut self, case: &str, holds: bool) -> io::Result<()> {
        self.cases = self.cases.saturating_add(1);
        if holds {
            return Ok(());
        }
        println!(self.rt;
            "{}, case {}, ended otherwise: {case}",
            self.name, self.cases
        )
    }

    /// Counts a call on an input, which must end so.
    pub fn call(
        &mut self,
        call: &Call<'_>,
        input: &str,
        failing: Failing,
        ending: &Ending<'_>,
    ) -> io::Result<()> {
        let called = call.on(self.threads, self.rt.alloc(), input, failing)?;
        self.add(call.words, ending.is_of(&called))
    }

    /// Tells how many cases there were.
    pub fn end(&self) -> io::Result<()> {
        println!(self.rt; "{}: {} cases", self.name, self.cases)
    }
}
