//! Sums that stay, and sums that grow by one with each transaction, whatever the schedule: 10,000 transfers between 64 boxes on
//! four threads, and additions to one box and to one counter on one, two and four.
use crate::outcome::outcome_of;
use rand_core::utils::NextWord;
use rand_pcg::Pcg32;
use std::alloc::{AllocError, Global};
use std::fmt::Write;
use std::io;
use std::thread::Threads;
use sto_cli::NoGate;

// How many boxes there are.
const BOXES: u32 = 64;

// What each box holds at first.
const FIRST: u32 = 100;

// How many threads there are.
const THREADS: u32 = 4;

// How many transfers each thread makes.
const TRANSFERS: u32 = 2500;

// How many additions each thread makes.
const ADDITIONS: u32 = 300;

// What is added to: its name, its declaration, and a transaction that adds 1.
const ADDED: [(&str, &str, &str); 2] = [
    (
        "a box",
        "box a 0\n",
        "begin\nx = get a\nx = sum x 1\nset a x\ncommit\n",
    ),
    ("a counter", "counter a 0\n", "begin\nadd a 1\ncommit\n"),
];

// One transaction, which takes an amount from one box and gives it to another.
fn add_transfer(text: &mut String, random: &mut Pcg32) -> Result<(), AllocError> {
    let from = random.next_word() % BOXES;
    let to = (from + 1 + random.next_word() % (BOXES - 1)) % BOXES;
    let amount = random.next_word() % 10;
    write!(
        text,
        "begin\nx = get b{from}\ny = get b{to}\nx = diff x {amount}\ny = sum y {amount}\nset b{from} x\nset b{to} y\ncommit\n"
    )
}

fn add_thread(text: &mut String, number: u32) -> Result<(), AllocError> {
    let mut random = Pcg32::new(u64::from(number), 1);
    text.push_str("thread\n")?;
    for _ in 0..TRANSFERS {
        add_transfer(text, &mut random)?;
    }
    Ok(())
}

// Threads of transfers between boxes.
fn transfers(alloc: Global) -> Result<String, AllocError> {
    let mut text = String::new(alloc);
    for number in 0..BOXES {
        write!(&mut text, "box b{number} {FIRST}\n")?;
    }
    for number in 0..THREADS {
        add_thread(&mut text, number)?;
    }
    Ok(text)
}

// Threads of transactions, each of which is this text.
fn repeated(alloc: Global, first: &str, transaction: &str) -> Result<String, AllocError> {
    let mut text = String::from_str(alloc, first)?;
    for _ in 0..THREADS {
        text.push_str("thread\n")?;
        for _ in 0..ADDITIONS {
            text.push_str(transaction)?;
        }
    }
    Ok(text)
}

fn commits_in(report: &str) -> usize {
    report
        .lines()
        .filter(|line| line.contains(" commit "))
        .count()
}

// The sum of the boxes and counters of a state.
fn sum_in(report: &str) -> i64 {
    let mut sum = 0_i64;
    for line in report.lines() {
        if let Some((_, value)) = line.split_once(" = ") {
            sum = sum.saturating_add(value.parse().unwrap_or(0));
        }
    }
    sum
}

// Runs a script on so many workers, and tells its commits and its sum.
fn tell<R: Threads + Sync>(
    rt: &HostRuntime,
    threads: &R,
    workers: u32,
    name: &str,
    script: &str,
) -> io::Result<()> {
    let words = format!(in rt.alloc(); "run --threads {workers}")?;
    let outcome = outcome_of(threads, rt.alloc(), words.as_str(), script, &NoGate)?;
    let report = outcome.written.as_str();
    println!(rt;
        "{name} on {workers}: {} commits, sum {}",
        commits_in(report),
        sum_in(report)
    )
}

/// Runs the transfers and the additions.
pub fn sum_all<R: Threads + Sync>(rt: &HostRuntime, threads: &R) -> io::Result<()> {
    let script = transfers(rt.alloc())?;
    tell(rt, threads, THREADS, "transfers", script.as_str())?;
    for (name, first, transaction) in ADDED {
        let script = repeated(rt.alloc(), first, transaction)?;
        for workers in [1, 2, 4] {
            tell(rt, threads, workers, name, script.as_str())?;
        }
    }
    Ok(())
}
