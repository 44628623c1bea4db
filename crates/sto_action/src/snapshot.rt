//! Code that is ready made: what many objects hold at one time.
ghost use Rattle.std.specs.Prelude.{◌≡◌, ◌+◌, ◌<◌, ◌^◌, length, map};
ghost use Rattle.sto_action.specs.Snapshots.{HasGot};

use crate::code::Action;
use crate::handles::{BoxId, CounterId};
use crate::tx::{Stop, Tx};
use std::convert::Infallible;

/// Gives what boxes and counters hold, all of them at one time.
#[derive(Clone, Copy)]
pub struct Snapshot<const B: usize, const C: usize> {
    pub boxes: [BoxId; B],
    pub counters: [CounterId; C],
    ghost few: { length boxes + length counters < 2 ^ 32 },
}

/// What objects held at one time, each in the place of its object.
#[derive(Clone, Copy, PartialEq, Eq, Debug)]
pub struct SnapshotValues<const B: usize, const C: usize> {
    pub boxes: [i64; B],
    pub counters: [i64; C],
}

impl<const B: usize, const C: usize> Action for Snapshot<B, C> {
    ghost use Rattle.std.specs.Prelude.{◌+◌, length};
    ghost use Rattle.sto_action.specs.Snapshots.{snapshot};

    type Out = SnapshotValues<B, C>;

    type Reason = Infallible;

    ghost does = { λ s. snapshot s.boxes s.counters };

    ghost most = { λ s. length s.boxes + length s.counters };

    fn most(&self) -> u32 {
        (self.boxes.len() + self.counters.len()) as u32
    }

    fn run(&self, tx: &mut Tx<'_>) -> Result<SnapshotValues<B, C>, Stop<Infallible>> {
        let boxes = boxes_held(&self.boxes, tx)?;
        let counters = counters_held(&self.counters, tx)?;
        Ok(SnapshotValues { boxes, counters })
    }
}

// What boxes hold.
fn boxes_held<E, const N: usize>(boxes: &[BoxId; N], tx: &mut Tx<'_>) -> Result<[i64; N], Stop<E>>
    ensures { HasGot (map (λ x. x.number) boxes.now) tx.old tx.new result }
{
    let mut held = [0; N];
    for place in 0..N {
        let value = boxes[place].get(tx)?;
        held[place] = value;
    }
    Ok(held)
}

// What counters hold.
fn counters_held<E, const N: usize>(
    counters: &[CounterId; N],
    tx: &mut Tx<'_>,
) -> Result<[i64; N], Stop<E>>
    ensures { HasGot (map (λ x. x.number) counters.now) tx.old tx.new result }
{
    let mut held = [0; N];
    for place in 0..N {
        let value = counters[place].get(tx)?;
        held[place] = value;
    }
    Ok(held)
}
