//! A call as one line of words.
use crate::calls::checking::call_check;
use crate::calls::running::{call, call_feed};
use crate::calls::streams::{Called, Failing};
use crate::calls::words::words_in;
use std::alloc::{AllocError, Global};
use std::sync::Wait;
use std::thread::Threads;
use sto_cli::NoGate;

/// A program of the repository.
#[derive(Clone, Copy)]
pub enum Program {
    Sto,
    Check,
    Feed,
}

/// A call of a program with the words after its name.
#[derive(Clone, Copy)]
pub struct Call<'a> {
    pub program: Program,
    pub words: &'a str,
}

impl Call<'_> {
    /// Calls the program on an input.
    pub fn on<R: Threads + Wait + Sync>(
        &self,
        threads: &R,
        alloc: Global,
        input: &str,
        failing: Failing,
    ) -> Result<Called, AllocError> {
        let words = words_in(alloc, self.words)?;
        let words = words.as_slice();
        let called = match self.program {
            Program::Sto => call(threads, alloc, words, input, failing, &NoGate),
            Program::Check => call_check(alloc, words, input.as_bytes(), failing),
            Program::Feed => call_feed(threads, alloc, words, input, failing, &NoGate),
        };
        called.map_err(|_| AllocError)
    }
}
