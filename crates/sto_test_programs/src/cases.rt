//! Cases that stand in files, and what is done with them. It tells how many cases each group has, and which of them end otherwise than
//! they must.
//!
//! The cases of a group stand in a file of its name:
//!
//! ```text
//! ~ what the case shows
//! $ sto run --threads 2
//! box a 0
//! % 0
//! state
//! a = 0
//! ```
//!
//! A program, `sto`, `check` or `feed`, is called with the words after its name; its input follows. Behind `%` stands the status,
//! and then what is written: on standard output where the status is 0 or 1, and beside it otherwise. [`text`] says how long texts
//! are written there.
mod changes;
mod ending;
mod explored;
mod failing;
mod generated;
mod group;
mod prefixes;
mod text;

use crate::calls::{Call, Failing, NONE, Program};
use ending::Ending;
use group::Group;
use std::sync::Wait;
use std::thread::Threads;
use std::{fs, io};
pub use text::written_out;

const GROUPS: [(&str, Kind); 17] = [
    ("commands", Kind::Called),
    ("examples", Kind::Called),
    ("pictures", Kind::Called),
    ("limits", Kind::Called),
    ("checks", Kind::Called),
    ("feeds", Kind::Called),
    ("stepped", Kind::Called),
    ("stopped", Kind::Called),
    ("long", Kind::Long),
    ("explored", Kind::Explored),
    ("without_source", Kind::Begun),
    ("reading", Kind::Reading),
    ("writing", Kind::Writing),
    ("beside", Kind::Beside),
    ("prefixes", Kind::Prefixes),
    ("reports", Kind::Changes),
    ("changes", Kind::Changes),
];

// What is done with the cases of a file.
#[derive(Clone, Copy)]
enum Kind {
    // Each is called.
    Called,
    // Each is called. What is written begins with the text.
    Long,
    // Each is called over a source whose first call would fail. What is written begins with the text.
    Begun,
    // Each explores a script. The text is the last line, and `step` prints each outcome by its schedule.
    Explored,
    // Each call of the source fails in turn. Where no text is told, any is right.
    Reading,
    // Each call of the output fails in turn. Where no text is told, it is the one that a call without a fault writes.
    Writing,
    // Each call of the sink beside fails in turn.
    Beside,
    // The input is cut short at each place. The text has the lines with which it may end.
    Prefixes,
    // The input is changed by each line of the text.
    Changes,
}

/// A case, as it stands in its file.
#[derive(Clone, Copy)]
pub struct Case<'a> {
    pub call: Call<'a>,
    pub input: &'a str,
    pub status: u8,
    pub text: &'a str,
}

impl<'a> Case<'a> {
    /// Reads what stands behind a dollar sign.
    pub fn read(block: &'a str) -> Option<Case<'a>> {
        let (call, ending) = block.split_once('%')?;
        let (head, input) = call.split_once('\n')?;
        let (status, text) = ending.split_once('\n')?;
        let (name, words) = head.split_once(' ').unwrap_or((head, ""));
        Some(Case {
            call: Call {
                program: program_named(name)?,
                words,
            },
            input,
            status: status.trim().parse().ok()?,
            text: without_comment(text),
        })
    }

    /// How it must end, where this text is written.
    pub fn ending<'b>(&self, text: &'b str) -> Ending<'b> {
        let is_output = self.status <= 1;
        Ending {
            status: self.status,
            out: if is_output { text } else { "" },
            line: if is_output { "" } else { text },
        }
    }
}

fn program_named(name: &str) -> Option<Program> {
    match name {
        "sto" => Some(Program::Sto),
        "check" => Some(Program::Check),
        "feed" => Some(Program::Feed),
        _ => None,
    }
}

// What stands before the comment on the next case.
fn without_comment(text: &str) -> &str {
    match text.split_once('~') {
        Some((before, _)) => before,
        None => text,
    }
}

/// The text of a file of cases.
pub fn file_of(rt: &HostRuntime, name: &str) -> io::Result<String> {
    fs::read_to_string(rt, format!(in rt.alloc(); "cases/{name}.txt")?)
}

/// The cases of all groups.
pub fn go_over_all<R: Threads + Wait + Sync>(rt: &HostRuntime, threads: &R) -> io::Result<()> {
    for (name, kind) in GROUPS {
        go_over(rt, threads, name, kind)?;
    }
    failing::go_over(rt, threads)?;
    generated::go_over(rt, threads)
}

// Each case of the file of a group.
fn go_over<R: Threads + Wait + Sync>(
    rt: &HostRuntime,
    threads: &R,
    name: &str,
    kind: Kind,
) -> io::Result<()> {
    let file = file_of(rt, name)?;
    let mut group = Group {
        rt,
        threads,
        name,
        cases: 0,
    };
    for block in file.as_str().split("$ ") {
        if let Some(case) = Case::read(block) {
            go_through(&mut group, kind, &case)?;
        }
    }
    group.end()
}

fn go_through<R: Threads + Wait + Sync>(
    group: &mut Group<'_, R>,
    kind: Kind,
    case: &Case<'_>,
) -> io::Result<()> {
    match kind {
        Kind::Called => call(group, case),
        Kind::Long => call_long(group, case),
        Kind::Begun => begin(group, case, case.input, 1),
        Kind::Explored => explored::explore(group, case),
        Kind::Reading => failing::fail_reading(group, case),
        Kind::Writing => failing::fail_writing(group, case),
        Kind::Beside => failing::fail_beside(group, case),
        Kind::Prefixes => prefixes::cut(group, case),
        Kind::Changes => changes::go_over(group, case),
    }
}

fn call<R: Threads + Wait + Sync>(group: &mut Group<'_, R>, case: &Case<'_>) -> io::Result<()> {
    let input = written_out(group.rt, case.input)?;
    let text = written_out(group.rt, case.text)?;
    let ending = case.ending(text.as_str());
    group.call(&case.call, input.as_str(), NONE, &ending)
}

fn call_long<R: Threads + Wait + Sync>(
    group: &mut Group<'_, R>,
    case: &Case<'_>,
) -> io::Result<()> {
    let input = written_out(group.rt, case.input)?;
    begin(group, case, input.as_str(), 0)
}

// What is written on an input begins with the text of a case, where this call of the source fails.
fn begin<R: Threads + Wait + Sync>(
    group: &mut Group<'_, R>,
    case: &Case<'_>,
    input: &str,
    source: u64,
) -> io::Result<()> {
    let alloc = group.rt.alloc();
    let failing = Failing { source, ..NONE };
    let called = case.call.on(group.threads, alloc, input, failing)?;
    let begins = called.out.as_slice().starts_with(case.text.as_bytes());
    group.add(case.call.words, called.status == case.status && begins)
}
