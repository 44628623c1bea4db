//! The program `sto`: runs scripts of transactions.
#![tactic(auto)]

mod meter;

use crate::meter::TerminalMeter;
use std::process::ExitCode;
use sto_cli::{StdSink, StdSource, refuse_words, sto, words_of};
use sto_run_threads::SleepingGate;

fn main(rt: HostRuntime) -> ExitCode {
    let mut diag = StdSink::error(&rt);
    let words = match words_of(&rt) {
        Ok(words) => words,
        Err(fault) => return ExitCode::from(refuse_words(rt.alloc(), fault, &mut diag)),
    };
    let mut source = StdSource::new(&rt);
    let mut out = StdSink::output(&rt);
    ExitCode::from(sto(
        &rt,
        rt.alloc(),
        words.as_slice(),
        &mut source,
        &mut out,
        &mut diag,
        &SleepingGate::new(&rt),
        &TerminalMeter::new(&rt),
    ))
}
