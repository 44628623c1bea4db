//! The measures of a scene.
ghost use Rattle.std.specs.Prelude.{◌≡◌, ◌==◌, ◌+◌, ◌<◌, ◌≤◌, ◌^◌, true, length, map, fold, IfOk, OnOk, Some, if◌then◌else◌};
ghost use Rattle.std.specs.List.{list_all, list_any};
ghost use Rattle.sto_lang.specs.Ascii.{is_ascii};
ghost use Rattle.sto_picture.specs.Elements.{each};
ghost use Rattle.sto_picture.specs.Views.{scene_view, frame_view, bytes_of, text_at};
ghost use Rattle.sto_picture.specs.Places.{longest, with_part, lanes_of, lane_names, name_width, first_left, event_width, end_width, ends, left_of, frame_of};

use crate::Scene;
use crate::frame::Frame;
use crate::told::locked_part;
use std::alloc::Global;
use sto_lang::Text;
use sto_part::{List, NoMemory, Parts};
use sto_trace::Step;

/// The text with a number; where there is none, nothing.
pub(crate) fn text_at(texts: &[Text], number: u32) -> &str
    ensures text { result.now ≡ text_at (bytes_of texts.now) number }
    ensures ascii { list_all is_ascii result.now ≡ true }
{
    match texts.get(number as usize) {
        Some(text) => text.as_str(),
        None => "",
    }
}

/// The length of the longest text.
pub(crate) fn longest(texts: &[Text]) -> u32
    ensures { result ≡ longest (bytes_of texts.now) }
{
    let mut most = 0;
    for text in texts {
        most = most.max(text.len());
    }
    most
}

/// The length of the longest name of some parts.
fn longest_name(parts: &[Text], lanes: &[u32]) -> usize
    ensures { result ≡ longest (lane_names (bytes_of parts.now) lanes.now) }
{
    let mut most = 0;
    for lane in lanes {
        most = most.max(text_at(parts, *lane).len());
    }
    most
}

fn has_part(lanes: &[u32], part: u32) -> bool
    ensures { result ≡ list_any (λ lane. lane == part) lanes.now }
{
    lanes.iter().any(|lane| *lane == part)
}

/// Adds a part, where it is not there yet.
fn add_part(lanes: &mut Parts, part: u32) -> Result<(), NoMemory>
    requires { length lanes.old.items + 1 < 2 ^ 32 }
    ensures parts { OnOk result (lanes.new.items ≡ with_part lanes.old.items (Some part)) }
    ensures few { length lanes.new.items ≤ length lanes.old.items + 1 }
{
    if !has_part(lanes.as_slice(), part) {
        lanes.push(part)?;
    }
    Ok(())
}

/// The parts that are locked, in the order of their first locks.
fn lanes_of(alloc: Global, steps: &[Step]) -> Result<Parts, NoMemory>
    requires { length steps.now ≤ 20000 }
    ensures { IfOk result (λ lanes. lanes.items ≡ lanes_of steps.now) }
{
    let mut lanes = Parts::new(alloc);
    for step in steps {
        if let Some(part) = locked_part(step.deed) {
            add_part(&mut lanes, part)?;
        }
    }
    Ok(lanes)
}

/// How much further the next column begins.
fn step_width(step: &Step, event: u32, room: u32) -> u32
    requires event { event ≤ 14 }
    requires room { room ≤ 400 }
    ensures width { result ≡ event + (if ends step.now then room else 0) }
    ensures small { result ≤ 414 }
{
    if step.end.is_some() {
        event + room
    } else {
        event
    }
}

/// Where the column of each step begins, and where the last one ends, by where the first begins, the width of an event and how
/// much further a step goes with which an attempt ends.
fn lefts_of(
    alloc: Global,
    steps: &[Step],
    first: u32,
    event: u32,
    room: u32,
) -> Result<List<u32>, NoMemory>
    requires few { length steps.now ≤ 20000 }
    requires first { first ≤ 400 }
    requires event { event ≤ 14 }
    requires room { room ≤ 400 }
    ensures { IfOk result (λ lefts. lefts.items ≡ each (left_of first event room steps.now) (length steps.now + 1)) }
{
    let mut lefts = List::new(alloc);
    let mut left = first;
    for step in steps {
        lefts.push(left)?;
        left += step_width(step, event, room);
    }
    lefts.push(left)?;
    Ok(lefts)
}

/// How wide an event is in a run of so many.
fn event_width(count: u32) -> u32
    ensures width { result ≡ event_width count }
    ensures small { result ≤ 14 }
{
    if count <= 200 { 14 } else { 8 }
}

/// The room that names of threads take.
fn thread_width(threads: &[Text]) -> u32
    ensures width { result ≡ name_width (bytes_of threads.now) }
    ensures small { result ≤ 48 }
{
    longest(threads).min(48)
}

/// The room that names of parts take.
fn part_width(parts: &[Text], lanes: &[u32]) -> u32
    ensures width { result ≡ name_width (lane_names (bytes_of parts.now) lanes.now) }
    ensures small { result ≤ 48 }
{
    longest_name(parts, lanes).min(48) as u32
}

#[tactic(auto, using(crate::proofs::Growing::frame_made))]
/// All places of a scene.
pub(crate) fn frame_of(alloc: Global, scene: &Scene) -> Result<Frame, NoMemory>
    requires { length scene.now.steps.items ≤ 20000 }
    ensures { IfOk result (λ f. frame_view f ≡ frame_of (scene_view scene.now)) }
{
    let steps = scene.steps.as_slice();
    let lanes = lanes_of(alloc, steps)?;
    let parts = part_width(scene.parts.as_slice(), lanes.as_slice());
    let threads = thread_width(scene.threads.as_slice());
    let event = event_width(scene.steps.len());
    let first = 24 + 7 * threads.max(parts);
    let room = 10 + 7 * parts.max(16);
    let lefts = lefts_of(alloc, steps, first, event, room)?;
    Ok(Frame {
        threads: scene.threads.len(),
        lanes,
        lefts,
        event,
    })
}
