//! The order of outcomes: the simplest schedule first.
ghost use Rattle.std.specs.Prelude.{◌≡◌, ◌∷◌, OnOk, length, flat_map};
ghost use Rattle.std.specs.Ordering.{nat_cmp, ordering_then};
ghost use Rattle.std.specs.Cmp.Lexicographic.{slice_cmp};
ghost use Rattle.std.specs.List.Sorted.{IsPermutation};
ghost use Rattle.sto_explore.specs.Outcomes.{leg_rank, rank_of, AreInOrder};

use crate::leg::Leg;
use crate::outcome::Outcome;
use std::alloc::AllocError;
use std::cmp::Ordering;
use sto_part::NoMemory;

// Which of two legs comes first.
fn compare_leg(a: &Leg, b: &Leg) -> Ordering
    ensures { result ≡ ordering_then (nat_cmp a.now.thread b.now.thread) (nat_cmp a.now.turns b.now.turns) }
{
    a.thread.cmp(&b.thread).then(a.turns.cmp(&b.turns))
}

// Which of as many legs come first.
fn compare_legs(a: &[Leg], b: &[Leg]) -> Ordering
    requires { length a.now ≡ length b.now }
    ensures { result ≡ slice_cmp nat_cmp (flat_map leg_rank a.now) (flat_map leg_rank b.now) }
{
    for k in 0..a.len() {
        match compare_leg(&a[k], &b[k]) {
            Ordering::Equal => {}
            other => return other,
        }
    }
    Ordering::Equal
}

// Which of two lists of legs comes first: that with fewer legs.
fn compare(a: &[Leg], b: &[Leg]) -> Ordering
    ensures { result ≡ slice_cmp nat_cmp (rank_of a.now) (rank_of b.now) }
{
    match a.len().cmp(&b.len()) {
        Ordering::Equal => compare_legs(a, b),
        other => other,
    }
}

/// Sorts outcomes by the schedules that lead to them.
pub(crate) fn sort(outcomes: &mut Vec<Outcome>) -> Result<(), NoMemory>
    ensures order { OnOk result (AreInOrder outcomes.new.items) }
    ensures same { IsPermutation outcomes.old.items outcomes.new.items }
{
    match outcomes.sort_by(|a, b| compare(a.legs.as_slice(), b.legs.as_slice())) {
        Ok(()) => Ok(()),
        Err(AllocError) => Err(NoMemory),
    }
}
