//! Inputs of the checker whose report is changed.
//!
//! A change is a line `2 1 3:TEXT`: from line 2 of the report on, 1 line is replaced by the text, in which a slash stands for the
//! end of a line, and line 3 is then the first that is not right. Where that number is 0, the report is lawful.
use crate::calls::NONE;
use crate::cases::Case;
use crate::cases::ending::Ending;
use crate::cases::group::Group;
use crate::cases::text::written_out;
use std::alloc::{AllocError, Global};
use std::io;
use std::sync::Wait;
use std::thread::Threads;

#[derive(Clone, Copy)]
struct Change<'a> {
    // The first line that is replaced, from 1, and how many are.
    line: usize,
    count: usize,
    by: &'a str,
    // The first line that is not right; 0 where there is none.
    wrong: u32,
}

impl<'a> Change<'a> {
    fn read(row: &'a str) -> Option<Change<'a>> {
        let (numbers, by) = row.split_once(':')?;
        let (line, rest) = numbers.split_once(' ')?;
        let (count, wrong) = rest.split_once(' ')?;
        Some(Change {
            line: line.parse().ok()?,
            count: count.parse().ok()?,
            by,
            wrong: wrong.parse().ok()?,
        })
    }

    // The script and the changed report.
    fn input(&self, rt: &HostRuntime, input: &str) -> io::Result<String> {
        let (script, report) = input.split_once("\nreport\n").unwrap_or(("", input));
        let (front, rest) = divided(report, self.line.saturating_sub(1));
        let (_, back) = divided(rest, self.count);
        let by = written_out(rt, self.by)?;
        let mut text = format!(in rt.alloc(); "{script}\nreport\n{front}")?;
        push_lines(&mut text, by.as_str())?;
        text.push_str(back)?;
        Ok(text)
    }

    fn answer(&self, alloc: Global) -> Result<String, AllocError> {
        match self.wrong {
            0 => String::from_str(alloc, "lawful\n"),
            line => format!(in alloc; "line {line}\n"),
        }
    }
}

// So many lines of a text, and what stands behind them.
fn divided(text: &str, lines: usize) -> (&str, &str) {
    let mut at = 0_usize;
    for line in text.split_inclusive('\n').take(lines) {
        at = at.saturating_add(line.len());
    }
    (text.get(..at).unwrap_or(text), text.get(at..).unwrap_or(""))
}

// Adds a text, with line feeds in the place of its slashes.
fn push_lines(text: &mut String, lines: &str) -> Result<(), AllocError> {
    for letter in lines.chars() {
        text.push(if letter == '/' { '\n' } else { letter })?;
    }
    Ok(())
}

/// Each change of the report of a case.
pub fn go_over<R: Threads + Wait + Sync>(
    group: &mut Group<'_, R>,
    case: &Case<'_>,
) -> io::Result<()> {
    for row in case.text.lines() {
        if let Some(change) = Change::read(row) {
            check(group, case, &change)?;
        }
    }
    Ok(())
}

fn check<R: Threads + Wait + Sync>(
    group: &mut Group<'_, R>,
    case: &Case<'_>,
    change: &Change<'_>,
) -> io::Result<()> {
    let input = change.input(group.rt, case.input)?;
    let answer = change.answer(group.rt.alloc())?;
    let ending = Ending {
        status: if change.wrong == 0 { 0 } else { 1 },
        out: answer.as_str(),
        line: "",
    };
    group.call(&case.call, input.as_str(), NONE, &ending)
}
