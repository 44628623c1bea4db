//! The examples and worked cases that the pages show, and each row of their tables of mistakes and of faults.
use crate::outcome::{Outcome, outcome_of};
use crate::page::{Example, Fault, Mistake, Page};
use std::alloc::AllocError;
use std::thread::Threads;
use std::{fs, io};
use sto_cli::NoGate;

/// The pages that show runs. The examples that they name lie beside them.
pub const PAGES: [&str; 11] = [
    "language.md",
    "report.md",
    "statuses.md",
    "help.md",
    "mistakes.md",
    "steps.md",
    "cases.md",
    "explore.md",
    "questions.md",
    "puzzles.md",
    "schedules.md",
];

// The words before an arrow and the file behind it, where the arrow stands in no quotes.
fn redirected<'a>(command: &'a str, arrow: &str) -> Option<(&'a str, &'a str)> {
    let (words, file) = command.rsplit_once(arrow)?;
    if file.contains('\'') {
        return None;
    }
    Some((words, file))
}

// What the words do with the file that they name, and else with the script.
fn run_of<R: Threads + Sync>(
    rt: &HostRuntime,
    threads: &R,
    command: &str,
    script: &str,
) -> io::Result<Outcome> {
    let Some((words, file)) = redirected(command, " < ") else {
        return Ok(outcome_of(threads, rt.alloc(), command, script, &NoGate)?);
    };
    let script = fs::read_to_string(rt, file)?;
    Ok(outcome_of(threads, rt.alloc(), words, script.as_str(), &NoGate)?)
}

// Whether a run writes what stands in a file, and nothing beside.
fn is_as_stored(rt: &HostRuntime, outcome: &Outcome, file: &str) -> io::Result<bool> {
    let stored = fs::read_to_string(rt, file)?;
    Ok(outcome.status == 0 && outcome.said.is_empty() && outcome.written == stored)
}

// Whether a page shows a text, or its beginning above a line of three dots.
fn shows(page: &str, text: &str) -> bool {
    match page.strip_suffix("...\n") {
        Some(front) => text.starts_with(front),
        None => text == page,
    }
}

// Whether a run writes what the page shows, with the status where the page shows it, and else with status 0.
fn is_as_shown<R: Threads + Sync>(
    rt: &HostRuntime,
    threads: &R,
    example: &Example,
) -> io::Result<bool> {
    let shown = example.command.as_str();
    let script = example.script.as_str();
    if let Some((command, file)) = redirected(shown, " > ") {
        let outcome = run_of(rt, threads, command, script)?;
        return is_as_stored(rt, &outcome, file);
    }
    let asked = shown.strip_suffix("; echo $?");
    let outcome = run_of(rt, threads, asked.unwrap_or(shown), script)?;
    let text = outcome.shown(rt.alloc())?;
    if asked.is_none() {
        return Ok(outcome.status == 0 && shows(example.output.as_str(), text.as_str()));
    }
    let whole = format!(in rt.alloc(); "{text}{}\n", outcome.status)?;
    Ok(whole == example.output)
}

// Whether the wrong script is refused with the line of the row, and the right one runs.
fn is_as_told<R: Threads + Sync>(
    rt: &HostRuntime,
    threads: &R,
    mistake: &Mistake,
) -> Result<bool, AllocError> {
    let wrong = outcome_of(threads, rt.alloc(), "run", mistake.wrong.as_str(), &NoGate)?;
    let right = outcome_of(threads, rt.alloc(), "run", mistake.right.as_str(), &NoGate)?;
    let line = wrong.said.as_str().strip_suffix("\n");
    Ok(wrong.status == 3 && line == Some(mistake.says.as_str()) && right.status == 0)
}

// Whether the script is refused with the line of the row.
fn is_refused<R: Threads + Sync>(
    rt: &HostRuntime,
    threads: &R,
    fault: &Fault,
) -> Result<bool, AllocError> {
    let outcome = outcome_of(threads, rt.alloc(), "run", fault.wrong.as_str(), &NoGate)?;
    let line = outcome.said.as_str().strip_suffix("\n");
    Ok(outcome.status == 3 && line == Some(fault.says.as_str()))
}

fn go_over<R: Threads + Sync>(rt: &HostRuntime, threads: &R, name: &str) -> io::Result<()> {
    let text = fs::read_to_string(rt, name)?;
    let page = Page::read(rt.alloc(), text.as_str())?;
    for example in page.examples.iter() {
        if !is_as_shown(rt, threads, example)? {
            println!(rt; "{name}, line {}: the run is not as shown", example.line)?;
        }
    }
    for mistake in page.mistakes.iter() {
        if !is_as_told(rt, threads, mistake)? {
            println!(rt; "{name}, line {}: the mistake is not as told", mistake.line)?;
        }
    }
    for fault in page.faults.iter() {
        if !is_refused(rt, threads, fault)? {
            println!(rt; "{name}, line {}: the fault is not as told", fault.line)?;
        }
    }
    println!(rt;
        "{name}: {} runs, {} mistakes, {} faults",
        page.examples.len(),
        page.mistakes.len(),
        page.faults.len()
    )
}

/// Goes over all pages.
pub fn go_over_all<R: Threads + Sync>(rt: &HostRuntime, threads: &R) -> io::Result<()> {
    for name in PAGES {
        go_over(rt, threads, name)?;
    }
    Ok(())
}
