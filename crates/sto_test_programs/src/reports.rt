//! The reports of each script of the pages and examples, and of a generated one: those of the script compared with
//! those of its upgrade, and each text with what the JSON of the same report says when it is read back.
use crate::cases::{Case, file_of, written_out};
use crate::made::{Reports, output_of};
use crate::pages::PAGES;
use crate::report::members;
use std::alloc::AllocError;
use std::thread::Threads;
use std::{fs, io};

// Commands that make the same report each time.
const COMMANDS: [&str; 3] = ["run --threads 1", "step", "step --tries 1"];

// A script whose transactions disturb each other.
const CONTENDED: &str = "<file examples/contended.sto>";

// How much was compared.
#[derive(Drop)]
struct Tally {
    scripts: u32,
    refused: u32,
    entries: usize,
    aborts: usize,
}

// What is wrong with the reports that a command makes of a script and of its upgrade, if anything is.
fn fault_of<R: Threads + Sync>(
    rt: &HostRuntime,
    threads: &R,
    command: &str,
    script: &str,
    upgraded: &str,
    tally: &mut Tally,
) -> Result<Option<&'static str>, AllocError> {
    let Some(reports) = Reports::made_by(threads, rt.alloc(), command, script)? else {
        return Ok(Some("there is no report"));
    };
    let of_upgrade = Reports::made_by(threads, rt.alloc(), command, upgraded)?;
    let Some(report) = reports.read_back(rt.alloc())? else {
        return Ok(Some("the JSON is not what the text says"));
    };
    tally.entries = tally
        .entries
        .saturating_add(members(&report, "journal").len());
    tally.aborts = tally
        .aborts
        .saturating_add(members(&report, "aborts").len());
    if of_upgrade.as_ref() != Some(&reports) {
        return Ok(Some("the upgrade has another report"));
    }
    Ok(None)
}

fn compare<R: Threads + Sync>(
    rt: &HostRuntime,
    threads: &R,
    name: &str,
    script: &str,
    tally: &mut Tally,
) -> io::Result<()> {
    let Some(upgraded) = output_of(threads, rt.alloc(), "upgrade", script)? else {
        tally.refused = tally.refused.saturating_add(1);
        return Ok(());
    };
    tally.scripts = tally.scripts.saturating_add(1);
    let again = output_of(threads, rt.alloc(), "upgrade", upgraded.as_str())?;
    if again.as_ref() != Some(&upgraded) {
        println!(rt; "{name}: the upgrade of its upgrade is another")?;
    }
    for command in COMMANDS {
        let fault = fault_of(rt, threads, command, script, upgraded.as_str(), tally)?;
        if let Some(fault) = fault {
            println!(rt; "{name}, {command}: {fault}")?;
        }
    }
    Ok(())
}

// Compares the reports of the scripts that a page shows.
fn compare_shown<R: Threads + Sync>(
    rt: &HostRuntime,
    threads: &R,
    page: &str,
    tally: &mut Tally,
) -> io::Result<()> {
    let text = fs::read_to_string(rt, page)?;
    for (number, block) in text.as_str().split("```sto\n").enumerate() {
        if let Some((script, _)) = block.split_once("```\n") {
            let name = format!(in rt.alloc(); "{page}, script {number}")?;
            compare(rt, threads, name.as_str(), script, tally)?;
        }
    }
    Ok(())
}

// Compares the reports of the script that an example names.
fn compare_example<R: Threads + Sync>(
    rt: &HostRuntime,
    threads: &R,
    name: &str,
    tally: &mut Tally,
) -> io::Result<()> {
    let script = written_out(rt, name)?;
    compare(rt, threads, name, script.as_str(), tally)
}

// Compares the reports of the scripts of the examples.
fn compare_examples<R: Threads + Sync>(
    rt: &HostRuntime,
    threads: &R,
    tally: &mut Tally,
) -> io::Result<()> {
    let file = file_of(rt, "examples")?;
    for block in file.as_str().split("$ ") {
        if let Some(case) = Case::read(block) {
            compare_example(rt, threads, case.input, tally)?;
        }
    }
    Ok(())
}

fn compare_scripts<R: Threads + Sync>(
    rt: &HostRuntime,
    threads: &R,
    tally: &mut Tally,
) -> io::Result<()> {
    for page in PAGES {
        compare_shown(rt, threads, page, tally)?;
    }
    compare_examples(rt, threads, tally)?;
    compare_example(rt, threads, CONTENDED, tally)?;
    match output_of(threads, rt.alloc(), "gen 1", "")? {
        Some(script) => compare(rt, threads, "the generated script", script.as_str(), tally),
        None => println!(rt; "there is no generated script"),
    }
}

/// Compares the reports of all scripts.
pub fn compare_all<R: Threads + Sync>(rt: &HostRuntime, threads: &R) -> io::Result<()> {
    let mut tally = Tally {
        scripts: 0,
        refused: 0,
        entries: 0,
        aborts: 0,
    };
    compare_scripts(rt, threads, &mut tally)?;
    println!(rt;
        "{} scripts, with {} transactions and {} aborted attempts in their reports; {} are refused",
        tally.scripts, tally.entries, tally.aborts, tally.refused
    )
}
