//! The generated script: its reports are lawful, and the feed loses nothing of it.
use crate::calls::{Call, Called, NONE, Program};
use crate::cases::ending::Ending;
use crate::cases::group::Group;
use std::alloc::{AllocError, Global};
use std::sync::Wait;
use std::thread::Threads;
use std::{io, str};

// Calls that print a report of the script.
const CALLS: [(Program, &str); 3] = [
    (Program::Sto, "run --threads 1"),
    (Program::Sto, "run --threads 4"),
    (Program::Feed, "--threads 4"),
];

/// Checks reports of the script, in each of which all transactions stand and the accounts hold together what they held at first.
pub fn go_over<R: Threads + Wait + Sync>(rt: &HostRuntime, threads: &R) -> io::Result<()> {
    let mut group = Group {
        rt,
        threads,
        name: "generated",
        cases: 0,
    };
    let generated = called(threads, rt.alloc(), Program::Sto, "gen 1", "")?;
    let script = str::from_utf8(generated.out.as_slice()).unwrap_or("");
    for (program, words) in CALLS {
        check_report(&mut group, script, program, words)?;
    }
    group.end()
}

fn check_report<R: Threads + Wait + Sync>(
    group: &mut Group<'_, R>,
    script: &str,
    program: Program,
    words: &str,
) -> io::Result<()> {
    let reported = called(group.threads, group.rt.alloc(), program, words, script)?;
    let report = str::from_utf8(reported.out.as_slice()).unwrap_or("");
    group.add(words, reported.status == 0 && is_whole(report))?;
    check(group, script, report)
}

fn is_whole(report: &str) -> bool {
    transactions_in(report) == 3200 && sum_of_accounts(report) == Some(64_000)
}

fn called<R: Threads + Wait + Sync>(
    threads: &R,
    alloc: Global,
    program: Program,
    words: &str,
    input: &str,
) -> Result<Called, AllocError> {
    let call = Call { program, words };
    call.on(threads, alloc, input, NONE)
}

// The report is lawful.
fn check<R: Threads + Wait + Sync>(
    group: &mut Group<'_, R>,
    script: &str,
    report: &str,
) -> io::Result<()> {
    let input = format!(in group.rt.alloc(); "{script}report\n{report}")?;
    let call = Call {
        program: Program::Check,
        words: "",
    };
    let lawful = Ending {
        status: 0,
        out: "lawful\n",
        line: "",
    };
    group.call(&call, input.as_str(), NONE, &lawful)
}

// How many lines of transactions a report has.
fn transactions_in(report: &str) -> usize {
    let journal = report.split("state\n").next().unwrap_or("");
    let lines = journal.lines();
    lines.filter(|line| !line.starts_with("abort ")).count()
}

// What the values of the object `acct` add up to, by its line of a report.
fn sum_of_accounts(report: &str) -> Option<i64> {
    let (_, rest) = report.split_once("acct = [")?;
    let (values, _) = rest.split_once(']')?;
    let mut sum = 0_i64;
    for value in values.split(',') {
        sum = sum.checked_add(value.parse().ok()?)?;
    }
    Some(sum)
}
