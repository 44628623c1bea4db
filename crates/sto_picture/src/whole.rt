//! The whole picture.
ghost use Rattle.std.specs.Prelude.{◌≡◌, ◌+◌, ◌*◌, ◌/◌, ◌++◌, ◌<◌, ◌≤◌, ◌^◌, length, OnOk, IfOk, unwrap_or, slice_get, codes};
ghost use Rattle.sto_picture.specs.Elements.{each_text, words_text};
ghost use Rattle.sto_picture.specs.Views.{scene_view, frame_view, bytes_of, text_at};
ghost use Rattle.sto_picture.specs.Told.{freed_part};
ghost use Rattle.sto_picture.specs.Places.{thread_top, part_top, value_line, picture_width};
ghost use Rattle.sto_picture.specs.Lanes.{lane_text, lock_text, change_text};
ghost use Rattle.sto_picture.specs.Arrows.{AreArrows};
ghost use Rattle.sto_picture.specs.Attempts.{attempt_bar, end_words, sign_text};
ghost use Rattle.sto_picture.specs.Pictures.{by_step, tick_text, ticks_text, lanes_text, steps_text, values_text, style_text, signs_text, opening_text, head_text, legend_text, drawn, picture_of};

use crate::Scene;
use crate::attempt::{push_attempt, push_end, push_sign};
use crate::element::{begin_words, end_words, push_attribute, push_box, push_number, push_words};
use crate::frame::Frame;
use crate::lane::{push_change, push_lane, push_lock};
use crate::measure::{frame_of, longest, text_at};
use crate::place::{lanes_bottom, last_right, left, part_top, thread_top, value_line};
use crate::style::{LEGEND, STYLE};
use crate::told::freed_part;
use std::alloc::Global;
use sto_lang::Text;
use sto_part::NoMemory;

/// The most events that a picture shows.
pub const MOST_STEPS: u32 = 20_000;

/// Adds the line of each tenth event.
fn push_tick(out: &mut Text, frame: &Frame, k: u32) -> Result<(), NoMemory>
    requires { 10 * k < 2 ^ 32 }
    ensures { OnOk result (out.new.items ≡ out.old.items ++ tick_text (frame_view frame.now) k) }
{
    let x = left(frame, 10 * k);
    let height = lanes_bottom(frame).saturating_sub(20);
    push_box(out, "rule", x, 20, 1, height)?;
    begin_words(out, "name", x + 3, 24)?;
    push_number(out, u64::from(10 * k))?;
    end_words(out)
}

#[tactic(auto, unfolding(crate::specs::Pictures::ticks_text))]
fn push_ticks(out: &mut Text, scene: &Scene, frame: &Frame) -> Result<(), NoMemory>
    ensures { OnOk result (out.new.items ≡ out.old.items ++ ticks_text (scene_view scene.now) (frame_view frame.now)) }
{
    for k in 0..scene.steps.len() / 10 + 1 {
        push_tick(out, frame, k)?;
    }
    Ok(())
}

fn push_threads(out: &mut Text, scene: &Scene, frame: &Frame, width: u64) -> Result<(), NoMemory>
    ensures { OnOk result (out.new.items ≡ out.old.items
        ++ each_text (λ thread. lane_text width (thread_top thread) (text_at (bytes_of scene.now.threads.items) thread))
        frame.now.threads) }
{
    for thread in 0..frame.threads {
        let name = text_at(scene.threads.as_slice(), thread);
        push_lane(out, width, thread_top(thread), name)?;
    }
    Ok(())
}

fn push_parts(out: &mut Text, scene: &Scene, frame: &Frame, width: u64) -> Result<(), NoMemory>
    ensures { OnOk result (out.new.items ≡ out.old.items
        ++ each_text (λ lane. lane_text width (part_top (frame_view frame.now) lane)
        (text_at (bytes_of scene.now.parts.items) (unwrap_or (slice_get frame.now.lanes.items lane) 0))) (length frame.now.lanes.items)) }
{
    for lane in 0..frame.lanes.len() {
        let name = text_at(scene.parts.as_slice(), *frame.lanes.get(lane));
        push_lane(out, width, part_top(frame, lane), name)?;
    }
    Ok(())
}

#[tactic(auto, unfolding(crate::specs::Pictures::lanes_text))]
/// Adds the lanes of the threads, and those of the parts.
fn push_lanes(out: &mut Text, scene: &Scene, frame: &Frame) -> Result<(), NoMemory>
    ensures { OnOk result (out.new.items ≡ out.old.items ++ lanes_text (scene_view scene.now) (frame_view frame.now)) }
{
    let width = width_of(scene, frame);
    push_threads(out, scene, frame, width)?;
    push_parts(out, scene, frame, width)
}

fn push_locks(out: &mut Text, scene: &Scene, frame: &Frame) -> Result<(), NoMemory>
    ensures { OnOk result (out.new.items ≡ out.old.items
        ++ by_step (λ n step. lock_text (frame_view frame.now) scene.now.steps.items n step.thread (freed_part step.deed))
        scene.now.steps.items) }
{
    for n in 0..scene.steps.len() {
        let step = scene.steps.get(n);
        let freed = freed_part(step.deed);
        push_lock(out, frame, scene.steps.as_slice(), n, step.thread, freed)?;
    }
    Ok(())
}

fn push_bars(out: &mut Text, scene: &Scene, frame: &Frame) -> Result<(), NoMemory>
    ensures { OnOk result (out.new.items ≡ out.old.items
        ++ by_step (λ n step. attempt_bar (frame_view frame.now) scene.now.steps.items n step.thread step.end) scene.now.steps.items) }
{
    for n in 0..scene.steps.len() {
        let step = scene.steps.get(n);
        push_attempt(out, frame, scene.steps.as_slice(), n, step.thread, step.end)?;
    }
    Ok(())
}

fn push_changes(out: &mut Text, scene: &Scene, frame: &Frame) -> Result<(), NoMemory>
    ensures { OnOk result (out.new.items ≡ out.old.items
        ++ by_step (λ n step. change_text (frame_view frame.now) scene.now.steps.items n step.thread step.end) scene.now.steps.items) }
{
    for n in 0..scene.steps.len() {
        let step = scene.steps.get(n);
        push_change(out, frame, scene.steps.as_slice(), n, step.thread, step.end)?;
    }
    Ok(())
}

fn push_signs(out: &mut Text, scene: &Scene, frame: &Frame) -> Result<(), NoMemory>
    ensures { OnOk result (out.new.items ≡ out.old.items ++ by_step
        (λ n step. sign_text (frame_view frame.now) n step ++ end_words (scene_view scene.now) (frame_view frame.now) n step step.end)
        scene.now.steps.items) }
{
    for n in 0..scene.steps.len() {
        let step = scene.steps.get(n);
        push_sign(out, frame, n, step)?;
        push_end(out, scene, frame, n, step)?;
    }
    Ok(())
}

#[tactic(auto, unfolding(crate::specs::Pictures::steps_text))]
fn push_steps(out: &mut Text, scene: &Scene, frame: &Frame) -> Result<(), NoMemory>
    ensures { OnOk result (out.new.items ≡ out.old.items ++ steps_text (scene_view scene.now) (frame_view frame.now)) }
{
    push_locks(out, scene, frame)?;
    push_bars(out, scene, frame)?;
    push_changes(out, scene, frame)?;
    push_signs(out, scene, frame)
}

fn push_value_lines(out: &mut Text, scene: &Scene, frame: &Frame) -> Result<(), NoMemory>
    ensures { OnOk result (out.new.items ≡ out.old.items ++ each_text (λ place. words_text (codes "value") 12
        (value_line (frame_view frame.now) place) (text_at (bytes_of scene.now.values.items) place)) (length scene.now.values.items)) }
{
    for place in 0..scene.values.len() {
        let words = text_at(scene.values.as_slice(), place);
        push_words(out, "value", 12, value_line(frame, place), words)?;
    }
    Ok(())
}

#[tactic(auto, unfolding(crate::specs::Pictures::values_text))]
/// Adds what the objects hold at the end.
fn push_values(out: &mut Text, scene: &Scene, frame: &Frame) -> Result<(), NoMemory>
    ensures { OnOk result (out.new.items ≡ out.old.items ++ values_text (scene_view scene.now) (frame_view frame.now)) }
{
    let y = lanes_bottom(frame);
    push_box(out, "rule", 0, y, width_of(scene, frame), 1)?;
    push_words(out, "name", 12, y + 20, "at the end")?;
    push_value_lines(out, scene, frame)
}

#[tactic(auto, unfolding(crate::specs::Pictures::style_text))]
/// Adds what the roles look like.
fn push_style(out: &mut Text) -> Result<(), NoMemory>
    ensures { OnOk result (out.new.items ≡ out.old.items ++ style_text) }
{
    out.append(STYLE)
}

#[tactic(auto, unfolding(crate::specs::Pictures::signs_text))]
/// Adds what the signs mean.
fn push_signs_meant(out: &mut Text) -> Result<(), NoMemory>
    ensures { OnOk result (out.new.items ≡ out.old.items ++ signs_text) }
{
    out.append(LEGEND)
}

#[tactic(auto, unfolding(crate::specs::Pictures::opening_text))]
fn push_opening(out: &mut Text) -> Result<(), NoMemory>
    ensures { OnOk result (out.new.items ≡ out.old.items ++ opening_text) }
{
    out.append("<svg xmlns='http://www.w3.org/2000/svg'")
}

#[tactic(auto, unfolding(crate::specs::Pictures::head_text))]
/// Adds the head of a picture.
fn push_head(out: &mut Text, width: u64, height: u64) -> Result<(), NoMemory>
    ensures { OnOk result (out.new.items ≡ out.old.items ++ head_text width height) }
{
    push_opening(out)?;
    push_attribute(out, "width", width)?;
    push_attribute(out, "height", height)?;
    out.append(">\n")?;
    push_style(out)
}

#[tactic(auto, unfolding(crate::specs::Pictures::legend_text))]
/// Adds the words about signs.
fn push_legend(out: &mut Text, top: u64) -> Result<(), NoMemory>
    ensures { OnOk result (out.new.items ≡ out.old.items ++ legend_text top) }
{
    out.append("<g transform='translate(12 ")?;
    push_number(out, top)?;
    out.append(")'>\n")?;
    push_signs_meant(out)?;
    out.append("</g>\n</svg>\n")
}

/// How wide a picture is.
fn width_of(scene: &Scene, frame: &Frame) -> u64
    ensures { result ≡ picture_width (scene_view scene.now) (frame_view frame.now) }
{
    let values = 24 + 7 * u64::from(longest(scene.values.as_slice()));
    (last_right(frame) + 48).max(values).max(740)
}

#[tactic(auto, unfolding(crate::specs::Pictures::drawn))]
/// Adds the picture of a scene in its places.
fn push_picture(out: &mut Text, scene: &Scene, frame: &Frame) -> Result<(), NoMemory>
    ensures { OnOk result (out.new.items ≡ out.old.items ++ drawn (scene_view scene.now) (frame_view frame.now)) }
{
    let top = value_line(frame, scene.values.len());
    push_head(out, width_of(scene, frame), top + 110)?;
    push_ticks(out, scene, frame)?;
    push_lanes(out, scene, frame)?;
    push_steps(out, scene, frame)?;
    push_values(out, scene, frame)?;
    push_legend(out, top)
}

/// The picture of a run as a text in SVG, with no script in it: a lane for each script thread with a bar for each attempt, a lane
/// for each part that is locked, and what the objects hold at the end.
pub fn picture(alloc: Global, scene: &Scene) -> Result<Text, NoMemory>
    requires { length scene.now.steps.items ≤ 20000 }
    ensures text { IfOk result (λ text. text.items ≡ picture_of (scene_view scene.now)) }
    // Both ends of each arrow name the part and the ticket that the aborted attempt tells.
    ensures arrows { AreArrows scene.now.steps.items }
{
    let frame = frame_of(alloc, scene)?;
    let mut out = Text::new(alloc);
    push_picture(&mut out, scene, &frame)?;
    Ok(out)
}
