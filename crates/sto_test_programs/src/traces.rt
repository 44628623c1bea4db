//! The traces of the examples, in both forms, beside the reports of the same scripts: all tell as many attempts.
use crate::cases::{Case, file_of, written_out};
use crate::outcome::outcome_of;
use std::io;
use std::thread::Threads;
use sto_cli::NoGate;

/// How many attempts ended, and how many were aborted.
#[derive(Clone, Copy, PartialEq, Eq)]
struct Attempts {
    ended: usize,
    aborted: usize,
}

// How the lines of a trace tell that an attempt ended.
struct Endings {
    commit: &'static str,
    read: &'static str,
    cancel: &'static str,
    abort: &'static str,
}

const TEXT: Endings = Endings {
    commit: "; commit ",
    read: "; read at ",
    cancel: "; cancel at ",
    abort: "; abort at ",
};

const JSON: Endings = Endings {
    commit: "\"end\":\"commit\"",
    read: "\"end\":\"read\"",
    cancel: "\"end\":\"cancel\"",
    abort: "\"end\":\"abort\"",
};

impl Attempts {
    // Those that a trace tells.
    fn traced(trace: &str, endings: &Endings) -> Attempts {
        let ended = trace
            .lines()
            .filter(|line| {
                line.contains(endings.commit)
                    || line.contains(endings.read)
                    || line.contains(endings.cancel)
            })
            .count();
        let aborted = trace
            .lines()
            .filter(|line| line.contains(endings.abort))
            .count();
        Attempts { ended, aborted }
    }

    // Those that a report tells before its state.
    fn reported(report: &str) -> Attempts {
        let (lines, _) = report.split_once("state\n").unwrap_or((report, ""));
        let ended = lines
            .lines()
            .filter(|line| !line.starts_with("abort "))
            .count();
        let aborted = lines
            .lines()
            .filter(|line| line.starts_with("abort "))
            .count();
        Attempts { ended, aborted }
    }
}

// Traces and steps the script that an example names, and gives the number of its events.
fn compare<R: Threads + Sync>(rt: &HostRuntime, threads: &R, name: &str) -> io::Result<usize> {
    let alloc = rt.alloc();
    let script = written_out(rt, name)?;
    let trace = outcome_of(threads, alloc, "trace", script.as_str(), &NoGate)?.written;
    let json = outcome_of(threads, alloc, "trace --json", script.as_str(), &NoGate)?.written;
    let report = outcome_of(threads, alloc, "step", script.as_str(), &NoGate)?.written;
    let reported = Attempts::reported(report.as_str());
    if Attempts::traced(trace.as_str(), &TEXT) != reported
        || Attempts::traced(json.as_str(), &JSON) != reported
    {
        println!(rt; "{name}: the trace tells other attempts than the report")?;
    }
    let events = trace.lines().count();
    if events == 0 || json.lines().count() != events {
        println!(rt; "{name}: the JSON of the trace tells other events")?;
    }
    Ok(events)
}

/// Compares those of all examples.
pub fn compare_all<R: Threads + Sync>(rt: &HostRuntime, threads: &R) -> io::Result<()> {
    let file = file_of(rt, "examples")?;
    let mut events: usize = 0;
    for block in file.as_str().split("$ ") {
        if let Some(case) = Case::read(block) {
            events = events.saturating_add(compare(rt, threads, case.input)?);
        }
    }
    println!(rt; "the traces of the examples: {events} events")
}
