//! What is drawn of lanes and locks.
ghost use Rattle.std.specs.Prelude.{◌≡◌, ◌+◌, ◌++◌, ◌<◌, ◌≤◌, ◌^◌, true, length, OnOk};
ghost use Rattle.std.specs.List.{list_all};
ghost use Rattle.sto_lang.specs.Ascii.{is_ascii};
ghost use Rattle.sto_picture.specs.Views.{frame_view};
ghost use Rattle.sto_picture.specs.Lanes.{held_text, lock_text, found_text, change_text, lane_text};

use crate::arrow::ends_of;
use crate::element::{Arrow, push_arrow, push_box, push_words};
use crate::frame::Frame;
use crate::place::{bar_bottom, lane_of, left, middle, part_top, right};
use crate::told::last_lock;
use sto_attempt_log::Verdict;
use sto_lang::Text;
use sto_part::NoMemory;
use sto_trace::Step;

/// Adds a thick line in a lane, from one step to another.
fn push_held(
    out: &mut Text,
    frame: &Frame,
    lane: Option<u32>,
    from: Option<u32>,
    n: u32,
) -> Result<(), NoMemory>
    ensures { OnOk result (out.new.items ≡ out.old.items ++ held_text (frame_view frame.now) lane from n) }
{
    let (Some(lane), Some(from)) = (lane, from) else {
        return Ok(());
    };
    let x = left(frame, from);
    let y = part_top(frame, lane) + 10;
    push_box(out, "lock", x, y, right(frame, n).saturating_sub(x), 7)
}

/// Adds the lock that step n gives back.
pub(crate) fn push_lock(
    out: &mut Text,
    frame: &Frame,
    steps: &[Step],
    n: u32,
    thread: u32,
    part: Option<u32>,
) -> Result<(), NoMemory>
    requires step { n < length steps.now }
    requires few { length steps.now < 2 ^ 32 }
    ensures { OnOk result (out.new.items ≡ out.old.items ++ lock_text (frame_view frame.now) steps.now n thread part) }
{
    let Some(part) = part else {
        return Ok(());
    };
    let from = last_lock(steps, thread, part, n);
    push_held(out, frame, lane_of(frame, part), from, n)
}

/// Adds an arrow from the release of a part to the step that found it, in the bar of a thread.
fn push_found(
    out: &mut Text,
    frame: &Frame,
    thread: u32,
    lane: Option<u32>,
    ends: Option<(u32, u32)>,
) -> Result<(), NoMemory>
    ensures { OnOk result (out.new.items ≡ out.old.items ++ found_text (frame_view frame.now) thread lane ends) }
{
    let (Some(lane), Some((from, found))) = (lane, ends) else {
        return Ok(());
    };
    let top = part_top(frame, lane);
    push_arrow(
        out,
        Arrow {
            x: middle(frame, from),
            y: top + 10,
            line: top + 5,
            to: middle(frame, found),
            head: bar_bottom(thread) + 2,
        },
    )
}

/// Adds the arrow to the attempt that ended with step n since a part was changed.
pub(crate) fn push_change(
    out: &mut Text,
    frame: &Frame,
    steps: &[Step],
    n: u32,
    thread: u32,
    end: Option<Verdict>,
) -> Result<(), NoMemory>
    requires step { n < length steps.now }
    requires few { length steps.now < 2 ^ 32 }
    ensures { OnOk result (out.new.items ≡ out.old.items ++ change_text (frame_view frame.now) steps.now n thread end) }
{
    let Some(Verdict::Changed { part, ticket, .. }) = end else {
        return Ok(());
    };
    let ends = ends_of(steps, thread, part, ticket, n);
    push_found(out, frame, thread, lane_of(frame, part), ends)
}

/// Adds the name of a lane, and a line above it across the picture.
pub(crate) fn push_lane(out: &mut Text, width: u64, top: u64, name: &str) -> Result<(), NoMemory>
    requires name { list_all is_ascii name.now ≡ true }
    requires top { top < 2 ^ 42 }
    ensures { OnOk result (out.new.items ≡ out.old.items ++ lane_text width top name.now) }
{
    push_box(out, "rule", 0, top, width, 1)?;
    push_words(out, "name", 12, top + 17, name)
}
