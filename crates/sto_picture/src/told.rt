//! What steps tell.
ghost use Rattle.std.specs.Prelude.{◌≡◌, ◌-◌, ◌<◌, ◌≤◌, ◌^◌, true, length, position, reverse, IfSome};
ghost use Rattle.std.specs.Option.{option_map};
ghost use Rattle.std.specs.List.{list_all};
ghost use Rattle.sto_lang.specs.Ascii.{is_ascii};
ghost use Rattle.sto_picture.specs.Told.{sign, starts, tries_lock, locked_part, freed_part, released_part, is_part, last_before, starts_of, locks_of, releases, commits_of, start_of, commit_of};

use sto_trace::{Deed, Step};

/// The sign of a deed.
pub(crate) fn sign(deed: Deed) -> &'static str
    ensures sign { result.now ≡ sign deed }
    ensures ascii { list_all is_ascii result.now ≡ true }
{
    match deed {
        Deed::Start { .. } => "s",
        Deed::Renew { .. } => "n",
        Deed::Open { .. } => "o",
        Deed::Word { .. } => "w",
        Deed::Close { .. } => "c",
        Deed::Recheck { .. } => "r",
        Deed::Lock { .. } => "L",
        Deed::Test { .. } => "T",
        Deed::Draw { .. } => "D",
        Deed::Check { .. } => "C",
        Deed::Decide { commit: true } => "Y",
        Deed::Decide { commit: false } => "N",
        Deed::Put { .. } => "P",
        Deed::Release { .. } => "R",
        Deed::Unlock { .. } => "U",
    }
}

fn starts(deed: Deed) -> bool
    ensures { result ≡ starts deed }
{
    matches!(deed, Deed::Start { .. })
}

fn tries_lock(deed: Deed) -> bool
    ensures { result ≡ tries_lock deed }
{
    matches!(deed, Deed::Lock { .. })
}

/// The part that a deed locked, which was free.
pub(crate) fn locked_part(deed: Deed) -> Option<u32>
    ensures { result ≡ locked_part deed }
{
    match deed {
        Deed::Lock { part, version } if !version.is_locked() => Some(part),
        _ => None,
    }
}

/// The part whose lock a deed gave back.
pub(crate) fn freed_part(deed: Deed) -> Option<u32>
    ensures { result ≡ freed_part deed }
{
    match deed {
        Deed::Release { part } | Deed::Unlock { part } => Some(part),
        _ => None,
    }
}

fn released_part(deed: Deed) -> Option<u32>
    ensures { result ≡ released_part deed }
{
    match deed {
        Deed::Release { part } => Some(part),
        _ => None,
    }
}

fn is_part(part: u32, other: Option<u32>) -> bool
    ensures { result ≡ is_part part other }
{
    match other {
        Some(other) => other == part,
        None => false,
    }
}

/// The place of a step that stands so far before n.
pub(crate) fn place_before(n: u32, back: Option<usize>) -> Option<u32>
    ensures { result ≡ option_map (λ back. n - 1 - back) back }
{
    match back {
        Some(back) => Some((n as usize).saturating_sub(1).saturating_sub(back) as u32),
        None => None,
    }
}

fn start_back(steps: &[Step], thread: u32) -> Option<usize>
    ensures { result ≡ position (starts_of thread) (reverse steps.now) }
{
    steps
        .iter()
        .rev()
        .position(|step| step.thread == thread && starts(step.deed))
}

/// The last step before n with which a thread began an attempt.
fn last_start(steps: &[Step], thread: u32, n: u32) -> Option<u32>
    requires { n ≤ length steps.now }
    ensures { result ≡ last_before (starts_of thread) steps.now n }
{
    place_before(n, start_back(&steps[..n as usize], thread))
}

fn lock_back(steps: &[Step], thread: u32, part: u32) -> Option<usize>
    ensures { result ≡ position (locks_of thread part) (reverse steps.now) }
{
    steps.iter().rev().position(|step| step.thread == thread
        && is_part(part, locked_part(step.deed)))
}

/// The last step before n with which a thread locked a part.
pub(crate) fn last_lock(steps: &[Step], thread: u32, part: u32, n: u32) -> Option<u32>
    requires { n ≤ length steps.now }
    ensures { result ≡ last_before (locks_of thread part) steps.now n }
{
    place_before(n, lock_back(&steps[..n as usize], thread, part))
}

fn release_back(steps: &[Step], part: u32) -> Option<usize>
    ensures { result ≡ position (releases part) (reverse steps.now) }
{
    steps
        .iter()
        .rev()
        .position(|step| is_part(part, released_part(step.deed)))
}

/// The last step before n that released a part.
pub(crate) fn last_release(steps: &[Step], part: u32, n: u32) -> Option<u32>
    requires { n ≤ length steps.now }
    ensures { result ≡ last_before (releases part) steps.now n }
{
    place_before(n, release_back(&steps[..n as usize], part))
}

/// The step with which the attempt began that a thread makes with step n.
pub(crate) fn start_of(steps: &[Step], thread: u32, n: u32) -> u32
    requires step { n < length steps.now }
    requires few { length steps.now < 2 ^ 32 }
    ensures start { result ≡ start_of steps.now thread n }
    ensures before { result ≤ n }
{
    last_start(steps, thread, n + 1).unwrap_or(0)
}

fn commit_ahead(steps: &[Step], thread: u32) -> Option<usize>
    ensures place { result ≡ position (commits_of thread) steps.now }
    ensures within { IfSome result (λ place. place < length steps.now) }
{
    steps
        .iter()
        .position(|step| step.thread == thread && tries_lock(step.deed))
}

/// The step with which that attempt began to commit, if it did.
pub(crate) fn commit_of(steps: &[Step], thread: u32, n: u32) -> Option<u32>
    requires step { n < length steps.now }
    requires few { length steps.now < 2 ^ 32 }
    ensures { result ≡ commit_of steps.now thread n }
{
    let start = start_of(steps, thread, n);
    match commit_ahead(&steps[start as usize..n as usize + 1], thread) {
        Some(more) => Some(start + more as u32),
        None => None,
    }
}
