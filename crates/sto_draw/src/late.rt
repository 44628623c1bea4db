//! The transactions that were handed back, of which no event is drawn.
ghost use Rattle.std.specs.Prelude.{◌≡◌, ◌<◌, ◌++◌, [], ◌∷◌, map, flat_map, length, IfOk, OnOk, if◌then◌else◌, codes};
ghost use Rattle.std.specs.List.{list_any};
ghost use Rattle.sto_lang.specs.Views.{names_of};
ghost use Rattle.sto_report_spec.specs.Named.{AreNames};
ghost use Rattle.sto_journal.specs.Journals.{entry, HaveThreads};
ghost use Rattle.sto_picture.specs.Views.{bytes_of};
ghost use Rattle.sto_draw.specs.Scenes.{is_end, has_ended, is_late, late_line, late_lines};

use crate::name::transaction_line;
use std::alloc::Global;
use sto_attempt_log::Verdict;
use sto_journal::Line;
use sto_lang::{Text, Thread};
use sto_part::{List, NoMemory};
use sto_trace::Step;

/// Whether an attempt ended and was not aborted.
fn is_end(end: Option<Verdict>) -> bool
    ensures { result ≡ is_end end }
{
    match end {
        Some(Verdict::Wrote { .. } | Verdict::Read { .. } | Verdict::Cancelled { .. }) => true,
        Some(Verdict::Locked { .. } | Verdict::Changed { .. }) | None => false,
    }
}

/// Whether one of the steps ended a transaction.
fn has_ended(steps: &[Step], thread: u32, position: u32) -> bool
    ensures { result ≡ has_ended steps.now thread position }
{
    steps.iter().any(|step| step.thread == thread && step.position == position && is_end(step.end))
}

/// Whether none of the steps ended a transaction.
fn is_late(steps: &[Step], line: &Line) -> bool
    ensures { result ≡ is_late steps.now (entry line.now) }
{
    !has_ended(steps, line.thread, line.position)
}

/// Adds a line. `NoMemory` comes also where there would be 2^32 of them.
fn add_line(lines: &mut List<Text>, line: Text) -> Result<(), NoMemory>
    ensures { OnOk result (bytes_of lines.new.items ≡ bytes_of lines.old.items ++ line.items ∷ []) }
{
    if lines.len() == u32::MAX {
        return Err(NoMemory);
    }
    lines.push(line)?;
    Ok(())
}

/// Adds the line of a transaction, where none of the steps ended it.
fn add_late(
    out: &mut List<Text>,
    alloc: Global,
    threads: &[Thread],
    steps: &[Step],
    line: &Line,
) -> Result<(), NoMemory>
    requires names { AreNames (names_of threads.now) }
    requires thread { line.now.thread < length threads.now }
    ensures { OnOk result (bytes_of out.new.items
        ≡ bytes_of out.old.items ++ late_line (names_of threads.now) steps.now (entry line.now)) }
{
    if !is_late(steps, line) {
        return Ok(());
    }
    add_line(out, transaction_line(alloc, threads, line)?)
}

/// Adds the lines of the transactions that none of the steps ended.
fn add_each(
    out: &mut List<Text>,
    alloc: Global,
    threads: &[Thread],
    steps: &[Step],
    lines: &[Line],
) -> Result<(), NoMemory>
    requires names { AreNames (names_of threads.now) }
    requires threads { HaveThreads (length threads.now) lines.now }
    ensures { OnOk result (bytes_of out.new.items
        ≡ bytes_of out.old.items ++ flat_map (late_line (names_of threads.now) steps.now) (map entry lines.now)) }
{
    for line in lines {
        add_late(out, alloc, threads, steps, line)?;
    }
    Ok(())
}

fn any_late(steps: &[Step], lines: &[Line]) -> bool
    ensures { result ≡ list_any (λ line. is_late steps.now (entry line)) lines.now }
{
    lines.iter().any(|line| is_late(steps, line))
}

/// Whether one of the transactions is of that kind.
fn has_late(steps: &[Step], lines: &[Line]) -> bool
    ensures { result ≡ list_any (is_late steps.now) (map entry lines.now) }
{
    any_late(steps, lines)
}

fn heading(alloc: Global) -> Result<Text, NoMemory>
    ensures { IfOk result (λ text. text.items ≡ codes "handed back, and run after the events above:") }
{
    let mut heading = Text::new(alloc);
    heading.append("handed back, and run after the events above:")?;
    Ok(heading)
}

/// Adds the heading of these lines, where there is one.
fn add_heading(
    out: &mut List<Text>,
    alloc: Global,
    steps: &[Step],
    lines: &[Line],
) -> Result<(), NoMemory>
    ensures { OnOk result (bytes_of out.new.items ≡ bytes_of out.old.items
        ++ (if list_any (is_late steps.now) (map entry lines.now) then codes "handed back, and run after the events above:" ∷ [] else [])) }
{
    if !has_late(steps, lines) {
        return Ok(());
    }
    add_line(out, heading(alloc)?)
}

/// Adds the lines of the transactions that were handed back, below a heading.
pub(crate) fn add_late_lines(
    out: &mut List<Text>,
    alloc: Global,
    threads: &[Thread],
    steps: &[Step],
    lines: &[Line],
) -> Result<(), NoMemory>
    requires names { AreNames (names_of threads.now) }
    requires threads { HaveThreads (length threads.now) lines.now }
    ensures { OnOk result (bytes_of out.new.items
        ≡ bytes_of out.old.items ++ late_lines (names_of threads.now) steps.now (map entry lines.now)) }
{
    add_heading(out, alloc, steps, lines)?;
    add_each(out, alloc, threads, steps, lines)
}
