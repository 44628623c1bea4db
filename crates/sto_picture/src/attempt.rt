//! What is drawn of attempts.
ghost use Rattle.std.specs.Prelude.{◌≡◌, ◌++◌, ◌<◌, ◌^◌, true, length, OnOk, codes};
ghost use Rattle.std.specs.List.{list_all};
ghost use Rattle.sto_lang.specs.Ascii.{is_ascii};
ghost use Rattle.sto_picture.specs.Views.{scene_view, frame_view, bytes_of};
ghost use Rattle.sto_picture.specs.Attempts.{bar_text, commit_bar, hatch_bar, attempt_bar, end_word, end_cause, end_writer, end_words, sign_text};

use crate::Scene;
use crate::element::{begin_words, end_words, push_box, push_number, push_words};
use crate::frame::Frame;
use crate::measure::text_at;
use crate::place::{bar_top, left, middle, right, words_line};
use crate::told::{commit_of, sign, start_of};
use sto_attempt_log::Verdict;
use sto_lang::Text;
use sto_part::NoMemory;
use sto_trace::Step;

/// Adds a bar in the lane of a thread, from one step to another.
fn push_bar(
    out: &mut Text,
    frame: &Frame,
    role: &str,
    thread: u32,
    from: u32,
    n: u32,
) -> Result<(), NoMemory>
    requires { list_all is_ascii role.now ≡ true }
    ensures { OnOk result (out.new.items ≡ out.old.items ++ bar_text (frame_view frame.now) role.now thread from n) }
{
    let x = left(frame, from);
    push_box(
        out,
        role,
        x,
        bar_top(thread),
        right(frame, n).saturating_sub(x),
        20,
    )
}

/// Adds the half in which an attempt commits.
fn push_commit_bar(
    out: &mut Text,
    frame: &Frame,
    thread: u32,
    from: Option<u32>,
    n: u32,
) -> Result<(), NoMemory>
    ensures { OnOk result (out.new.items ≡ out.old.items ++ commit_bar (frame_view frame.now) thread from n) }
{
    match from {
        Some(from) => push_bar(out, frame, "committing", thread, from, n),
        None => Ok(()),
    }
}

/// Hatches an attempt that was aborted.
fn push_hatch(
    out: &mut Text,
    frame: &Frame,
    thread: u32,
    end: Verdict,
    from: u32,
    n: u32,
) -> Result<(), NoMemory>
    ensures { OnOk result (out.new.items ≡ out.old.items ++ hatch_bar (frame_view frame.now) thread end from n) }
{
    match end {
        Verdict::Wrote { .. } | Verdict::Read { .. } | Verdict::Cancelled { .. } => Ok(()),
        Verdict::Locked { .. } | Verdict::Changed { .. } => {
            push_bar(out, frame, "aborted", thread, from, n)
        }
    }
}

/// Adds the bar of the attempt that ended with step n.
pub(crate) fn push_attempt(
    out: &mut Text,
    frame: &Frame,
    steps: &[Step],
    n: u32,
    thread: u32,
    end: Option<Verdict>,
) -> Result<(), NoMemory>
    requires step { n < length steps.now }
    requires few { length steps.now < 2 ^ 32 }
    ensures { OnOk result (out.new.items ≡ out.old.items ++ attempt_bar (frame_view frame.now) steps.now n thread end) }
{
    let Some(end) = end else {
        return Ok(());
    };
    let from = start_of(steps, thread, n);
    push_bar(out, frame, "reading", thread, from, n)?;
    push_commit_bar(out, frame, thread, commit_of(steps, thread, n), n)?;
    push_hatch(out, frame, thread, end, from, n)
}

/// How an attempt ended, in a word.
fn end_word(end: Verdict) -> &'static str
    ensures word { result.now ≡ end_word end }
    ensures ascii { list_all is_ascii result.now ≡ true }
{
    match end {
        Verdict::Wrote { .. } => "commit",
        Verdict::Read { .. } => "read",
        Verdict::Cancelled { .. } => "cancel",
        Verdict::Locked { .. } => "locked",
        Verdict::Changed { .. } => "changed",
    }
}

/// Adds the ticket of a commit, the number of the clock as of which an attempt read, or the part that was locked or changed.
fn push_cause(out: &mut Text, parts: &[Text], end: Verdict) -> Result<(), NoMemory>
    ensures { OnOk result (out.new.items ≡ out.old.items ++ end_cause (bytes_of parts.now) end) }
{
    match end {
        Verdict::Wrote { ticket } => {
            out.append("ticket ")?;
            push_number(out, ticket)
        }
        Verdict::Read { at } | Verdict::Cancelled { at } => {
            out.append("as of ")?;
            push_number(out, at)
        }
        Verdict::Locked { part, .. } | Verdict::Changed { part, .. } => {
            out.append(text_at(parts, part))
        }
    }
}

/// Adds by which ticket a part was changed.
fn push_writer(out: &mut Text, x: u64, y: u64, end: Verdict) -> Result<(), NoMemory>
    ensures { OnOk result (out.new.items ≡ out.old.items ++ end_writer x y end) }
{
    match end {
        Verdict::Wrote { .. }
        | Verdict::Read { .. }
        | Verdict::Cancelled { .. }
        | Verdict::Locked { .. } => Ok(()),
        Verdict::Changed { ticket, .. } => {
            begin_words(out, "end", x, y)?;
            out.append("by ticket ")?;
            push_number(out, ticket)?;
            end_words(out)
        }
    }
}

/// Adds how the attempt ended that ended with step n.
pub(crate) fn push_end(
    out: &mut Text,
    scene: &Scene,
    frame: &Frame,
    n: u32,
    step: &Step,
) -> Result<(), NoMemory>
    ensures { OnOk result (out.new.items ≡ out.old.items
        ++ end_words (scene_view scene.now) (frame_view frame.now) n step.now step.now.end) }
{
    let Some(end) = step.end else {
        return Ok(());
    };
    let x = right(frame, n) + 3;
    begin_words(out, "end", x, words_line(step.thread, 0))?;
    push_number(out, u64::from(step.position))?;
    out.append(": ")?;
    out.append(end_word(end))?;
    end_words(out)?;
    begin_words(out, "end", x, words_line(step.thread, 1))?;
    push_cause(out, scene.parts.as_slice(), end)?;
    end_words(out)?;
    push_writer(out, x, words_line(step.thread, 2), end)
}

/// Adds the sign of a step.
pub(crate) fn push_sign(out: &mut Text, frame: &Frame, n: u32, step: &Step) -> Result<(), NoMemory>
    ensures { OnOk result (out.new.items ≡ out.old.items ++ sign_text (frame_view frame.now) n step.now) }
{
    push_words(
        out,
        "sign",
        middle(frame, n),
        bar_top(step.thread) + 14,
        sign(step.deed),
    )
}
