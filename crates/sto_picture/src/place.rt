//! Where things stand, in units of the picture.
ghost use Rattle.std.specs.Prelude.{◌≡◌, ◌==◌, ◌<◌, ◌^◌, length, position, IfSome};
ghost use Rattle.sto_picture.specs.Views.{frame_view};
ghost use Rattle.sto_picture.specs.Places.{left, right, middle, thread_top, bar_top, bar_bottom, words_line, part_top, lane_of, lanes_bottom, value_line, last_right};

use crate::frame::Frame;

/// Where the column of a step begins.
pub(crate) fn left(frame: &Frame, n: u32) -> u64
    ensures left { result ≡ left (frame_view frame.now) n }
    ensures small { result < 2 ^ 32 }
{
    match frame.lefts.as_slice().get(n as usize) {
        Some(left) => u64::from(*left),
        None => 0,
    }
}

/// Where the event of a step ends.
pub(crate) fn right(frame: &Frame, n: u32) -> u64
    ensures right { result ≡ right (frame_view frame.now) n }
    ensures small { result < 2 ^ 33 }
{
    left(frame, n) + u64::from(frame.event)
}

/// The middle of the event of a step.
pub(crate) fn middle(frame: &Frame, n: u32) -> u64
    ensures { result ≡ middle (frame_view frame.now) n }
{
    left(frame, n) + u64::from(frame.event / 2)
}

/// Where all columns end.
pub(crate) fn last_right(frame: &Frame) -> u64
    ensures right { result ≡ last_right (frame_view frame.now) }
    ensures small { result < 2 ^ 32 }
{
    left(frame, frame.lefts.len().saturating_sub(1))
}

/// Where the lane of a thread begins.
pub(crate) fn thread_top(thread: u32) -> u64
    ensures top { result ≡ thread_top thread }
    ensures small { result < 2 ^ 40 }
{
    30 + 72 * u64::from(thread)
}

pub(crate) fn bar_top(thread: u32) -> u64
    ensures top { result ≡ bar_top thread }
    ensures small { result < 2 ^ 41 }
{
    thread_top(thread) + 7
}

pub(crate) fn bar_bottom(thread: u32) -> u64
    ensures bottom { result ≡ bar_bottom thread }
    ensures small { result < 2 ^ 41 }
{
    thread_top(thread) + 27
}

/// The lines of words below the bar of a thread.
pub(crate) fn words_line(thread: u32, line: u32) -> u64
    ensures { result ≡ words_line thread line }
{
    thread_top(thread) + 40 + 13 * u64::from(line)
}

/// Where the lane of a part begins.
pub(crate) fn part_top(frame: &Frame, lane: u32) -> u64
    ensures top { result ≡ part_top (frame_view frame.now) lane }
    ensures small { result < 2 ^ 41 }
{
    thread_top(frame.threads) + 24 * u64::from(lane)
}

fn place_in(lanes: &[u32], part: u32) -> Option<usize>
    ensures place { result ≡ position (λ lane. lane == part) lanes.now }
    ensures within { IfSome result (λ place. place < length lanes.now) }
{
    lanes.iter().position(|lane| *lane == part)
}

/// The lane that a part has.
pub(crate) fn lane_of(frame: &Frame, part: u32) -> Option<u32>
    ensures { result ≡ lane_of (frame_view frame.now) part }
{
    match place_in(frame.lanes.as_slice(), part) {
        Some(lane) => Some(lane as u32),
        None => None,
    }
}

/// Where all lanes end.
pub(crate) fn lanes_bottom(frame: &Frame) -> u64
    ensures bottom { result ≡ lanes_bottom (frame_view frame.now) }
    ensures small { result < 2 ^ 41 }
{
    part_top(frame, frame.lanes.len())
}

/// The line of the object with a place in the file.
pub(crate) fn value_line(frame: &Frame, place: u32) -> u64
    ensures line { result ≡ value_line (frame_view frame.now) place }
    ensures small { result < 2 ^ 42 }
{
    lanes_bottom(frame) + 38 + 15 * u64::from(place)
}
