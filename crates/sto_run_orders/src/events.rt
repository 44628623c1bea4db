//! The events that a leg of an order makes.

use sto_journal::Line;
use sto_trace::Step;

/// How many of the steps past the first ones are of a thread and of its transactions up to one, before another step comes.
pub(crate) fn events_up_to(steps: &[Step], first: usize, thread: u32, last: u32) -> usize {
    steps
        .iter()
        .skip(first)
        .take_while(|step| step.thread == thread && step.position <= last)
        .count()
}

/// Whether the line behind this one is of the same thread.
pub(crate) fn goes_on(lines: &[Line], place: usize) -> bool {
    match lines.get(place.saturating_add(1)) {
        Some(next) => match lines.get(place) {
            Some(line) => next.thread == line.thread,
            None => false,
        },
        None => false,
    }
}
