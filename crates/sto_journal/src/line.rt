//! The text of journal lines.
ghost use Rattle.std.specs.Prelude.{◌≡◌, ◌++◌, ◌<◌, length, OnOk, string_bytes, map};
ghost use Rattle.std.specs.List.{All, flat_map};
ghost use Rattle.sto_model.specs.PlainReplies.{plain_reply};
ghost use Rattle.sto_lang.specs.Views.{names_of};
ghost use Rattle.sto_report_spec.specs.Report.{line_text};
ghost use Rattle.sto_report_spec.specs.Short.{IsShortEntry};
ghost use Rattle.sto_journal.specs.Journals.{entry, HaveThreads};

use crate::Line;
use crate::names::thread_name;
use crate::replies::push_replies;
use std::alloc::AllocError;
use std::fmt::Write;
use sto_lang::Thread;

/// Adds a journal line to a text: its writers, its transaction, its end and its replies.
pub fn push_line(out: &mut String, threads: &[Thread], line: &Line) -> Result<(), AllocError>
    requires { line.now.thread < length threads.now }
    ensures text { OnOk result (string_bytes out.new ≡ string_bytes out.old ++ line_text (names_of threads.now) (entry line.now)) }
    ensures short { OnOk result (IsShortEntry (names_of threads.now) (entry line.now)) }
{
    let Line {
        k,
        thread,
        position,
        end,
        replies,
    } = line;
    let (k, position) = (*k, *position);
    let name = thread_name(threads, *thread);
    write!(out, "{k} {name}.{position} {end}")?;
    push_replies(out, replies.as_slice())?;
    out.push_str("\n")
}

/// Adds journal lines.
pub(crate) fn push_lines(
    out: &mut String,
    threads: &[Thread],
    lines: &[Line],
) -> Result<(), AllocError>
    requires { HaveThreads (length threads.now) lines.now }
    ensures text { OnOk result (string_bytes out.new ≡ string_bytes out.old
        ++ flat_map (line_text (names_of threads.now)) (map entry lines.now)) }
    ensures short { OnOk result (All (λ l. IsShortEntry (names_of threads.now) (entry l)) lines.now) }
{
    for line in lines {
        push_line(out, threads, line)?;
    }
    Ok(())
}
