//! The program `sto_feed`: feeds the transactions of a script one by one to workers.
#![tactic(auto)]

use std::process::ExitCode;
use sto_feed_cli::{StdSink, StdSource, feed, refuse_words, words_of};
use sto_run_threads::SleepingGate;

fn main(rt: HostRuntime) -> ExitCode {
    let mut diag = StdSink::error(&rt);
    let words = match words_of(&rt) {
        Ok(words) => words,
        Err(fault) => return ExitCode::from(refuse_words(rt.alloc(), fault, &mut diag)),
    };
    let mut source = StdSource::new(&rt);
    let mut out = StdSink::output(&rt);
    ExitCode::from(feed(
        &rt,
        rt.alloc(),
        words.as_slice(),
        &mut source,
        &mut out,
        &mut diag,
        &SleepingGate::new(&rt),
    ))
}
