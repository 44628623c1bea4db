//! The ends of arrows: where a part was released, and where an attempt found it changed.
ghost use Rattle.std.specs.Prelude.{◌≡◌, ◌-◌, ◌<◌, ◌≤◌, ◌^◌, length, position, reverse, IfSome};
ghost use Rattle.sto_picture.specs.Told.{last_before};
ghost use Rattle.sto_picture.specs.Arrows.{finds, draws, draws_this, finds_of, draws_of, found_at, has_drawn, is_with_ticket, released_at, ends_of};

use crate::told::{last_release, place_before, start_of};
use sto_trace::{Deed, Step};

/// Whether a deed looked at the version of a part and found a ticket.
fn finds(deed: Deed, part: u32, ticket: u64) -> bool
    ensures { result ≡ finds part ticket deed }
{
    match deed {
        Deed::Open {
            part: other,
            version,
        }
        | Deed::Close {
            part: other,
            version,
        }
        | Deed::Recheck {
            part: other,
            version,
        }
        | Deed::Lock {
            part: other,
            version,
        }
        | Deed::Test {
            part: other,
            version,
        }
        | Deed::Check {
            part: other,
            version,
        } => other == part && version.ticket() == ticket,
        _ => false,
    }
}

fn draws(deed: Deed) -> bool
    ensures { result ≡ draws deed }
{
    matches!(deed, Deed::Draw { .. })
}

fn draws_this(deed: Deed, ticket: u64) -> bool
    ensures { result ≡ draws_this ticket deed }
{
    match deed {
        Deed::Draw { ticket: other } => other == ticket,
        _ => false,
    }
}

fn find_back(steps: &[Step], thread: u32, part: u32, ticket: u64) -> Option<usize>
    ensures { result ≡ position (finds_of thread part ticket) (reverse steps.now) }
{
    steps.iter().rev().position(|step| step.thread == thread && finds(step.deed, part, ticket))
}

/// The last step before n with which a thread found a ticket at a part.
fn last_find(steps: &[Step], thread: u32, part: u32, ticket: u64, n: u32) -> Option<u32>
    requires { n ≤ length steps.now }
    ensures find { result ≡ last_before (finds_of thread part ticket) steps.now n }
    ensures before { IfSome result (λ found. found ≤ n - 1) }
{
    place_before(n, find_back(&steps[..n as usize], thread, part, ticket))
}

fn draw_back(steps: &[Step], thread: u32) -> Option<usize>
    ensures { result ≡ position (draws_of thread) (reverse steps.now) }
{
    steps
        .iter()
        .rev()
        .position(|step| step.thread == thread && draws(step.deed))
}

/// The last step before n with which a thread drew a ticket.
fn last_draw(steps: &[Step], thread: u32, n: u32) -> Option<u32>
    requires { n ≤ length steps.now }
    ensures { result ≡ last_before (draws_of thread) steps.now n }
{
    place_before(n, draw_back(&steps[..n as usize], thread))
}

/// Where the attempt that a thread ended with step n found this ticket at a part last.
fn found_at(steps: &[Step], thread: u32, part: u32, ticket: u64, n: u32) -> Option<u32>
    requires step { n < length steps.now }
    requires few { length steps.now < 2 ^ 32 }
    ensures find { result ≡ found_at steps.now thread part ticket n }
    ensures before { IfSome result (λ found. found ≤ n) }
{
    let found = last_find(steps, thread, part, ticket, n + 1)?;
    if start_of(steps, thread, n) <= found {
        Some(found)
    } else {
        None
    }
}

/// Whether the ticket that a thread drew last before step n is this one.
fn has_drawn(steps: &[Step], thread: u32, ticket: u64, n: u32) -> bool
    requires { n ≤ length steps.now }
    ensures { result ≡ has_drawn steps.now thread ticket n }
{
    let Some(drawn) = last_draw(steps, thread, n) else {
        return false;
    };
    match steps.get(drawn as usize) {
        Some(step) => draws_this(step.deed, ticket),
        None => false,
    }
}

/// Whether the thread of step n had drawn this ticket last.
fn is_with_ticket(steps: &[Step], ticket: u64, n: u32) -> bool
    ensures { result ≡ is_with_ticket steps.now ticket n }
{
    match steps.get(n as usize) {
        Some(step) => has_drawn(steps, step.thread, ticket, n),
        None => false,
    }
}

/// The last release of a part before step n, where it was made with this ticket.
fn released_at(steps: &[Step], part: u32, ticket: u64, n: u32) -> Option<u32>
    requires { n ≤ length steps.now }
    ensures { result ≡ released_at steps.now part ticket n }
{
    let from = last_release(steps, part, n)?;
    if is_with_ticket(steps, ticket, from) {
        Some(from)
    } else {
        None
    }
}

/// Both ends of the arrow to the attempt that a thread ended with step n, since a writer with this ticket had changed a part.
pub(crate) fn ends_of(
    steps: &[Step],
    thread: u32,
    part: u32,
    ticket: u64,
    n: u32,
) -> Option<(u32, u32)>
    requires step { n < length steps.now }
    requires few { length steps.now < 2 ^ 32 }
    ensures { result ≡ ends_of steps.now thread part ticket n }
{
    let found = found_at(steps, thread, part, ticket, n)?;
    let from = released_at(steps, part, ticket, found)?;
    Some((from, found))
}
