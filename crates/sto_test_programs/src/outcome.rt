//! What a program does with words and a script.
use crate::calls::{Called, NONE, call, call_feed, words_in};
use std::alloc::{AllocError, Global};
use std::str;
use std::sync::Wait;
use std::thread::Threads;
use sto_cli::Gate;
use sto_part::NoMemory;

/// What a run wrote on standard output and on standard error, and its exit status.
#[derive(Drop)]
pub struct Outcome {
    pub written: String,
    pub said: String,
    pub status: u8,
}

/// Runs `sto` on these words, with the script as its input, its workers on these threads, and under this gate.
pub fn outcome_of<R: Threads + Sync, G: Gate>(
    threads: &R,
    alloc: Global,
    words: &str,
    script: &str,
    gate: &G,
) -> Result<Outcome, AllocError> {
    let words = words_in(alloc, words)?;
    as_text(
        alloc,
        call(threads, alloc, words.as_slice(), script, NONE, gate),
    )
}

/// Runs `feed` so.
pub fn outcome_of_feed<R: Threads + Wait + Sync, G: Gate>(
    threads: &R,
    alloc: Global,
    words: &str,
    script: &str,
    gate: &G,
) -> Result<Outcome, AllocError> {
    let words = words_in(alloc, words)?;
    as_text(
        alloc,
        call_feed(threads, alloc, words.as_slice(), script, NONE, gate),
    )
}

fn as_text(alloc: Global, called: Result<Called, NoMemory>) -> Result<Outcome, AllocError> {
    let Ok(called) = called else {
        return Err(AllocError);
    };
    Ok(Outcome {
        written: text_of(alloc, called.out.as_slice())?,
        said: text_of(alloc, called.line.as_slice())?,
        status: called.status,
    })
}

fn text_of(alloc: Global, bytes: &[u8]) -> Result<String, AllocError> {
    String::from_str(alloc, str::from_utf8(bytes).unwrap_or("no text\n"))
}

impl Outcome {
    /// All that a terminal shows.
    pub fn shown(&self, alloc: Global) -> Result<String, AllocError> {
        format!(in alloc; "{}{}", self.written, self.said)
    }

    /// What it wrote, where its status is 0.
    pub fn report(&self) -> Option<&str> {
        if self.status == 0 {
            Some(self.written.as_str())
        } else {
            None
        }
    }
}
