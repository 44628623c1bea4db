//! What calls say into a buffer, where nothing is known and other parts stand before.
use crate::alone::{Entry, NotRun, are_updates, boxes, get, mixture, set};
use std::alloc::Global;
use sto_model::{Call, Reply};
use sto_part::Change;
use sto_type::{Cache, Said, TxType};

const BEFORE: u32 = 10;

// What a call says, or the part that it needs, where it is taken.
fn say_at_once<T: TxType>(
    alloc: Global,
    ty: &T,
    call: &Call,
    said: &mut Said,
) -> Result<Option<u32>, NotRun> {
    if !ty.takes(call) || ty.parts() > u32::MAX - BEFORE {
        return Err(NotRun::NotTaken);
    }
    let cache = Cache::new(alloc);
    Ok(ty.say(alloc, call, BEFORE, &cache.all(), said)?)
}

#[test]
fn said_behind_ten_parts(rt: HostRuntime) {
    let alloc = rt.alloc();
    let cases = [said_of_boxes(alloc), said_of_a_mixture(alloc)];
    assert_eq!(rt; cases, [Ok(true); 2]);
}

const PUT_SEVEN: &[Entry] = &[(11, &[Change::Put(7)])];

fn said_of_boxes(alloc: Global) -> Result<bool, NotRun> {
    let boxes = boxes(alloc, &[5, 6])?;
    let mut said = Said::new(alloc);
    let needed = say_at_once(alloc, &boxes, &get(1), &mut said)?;
    Ok(
        needed == Some(11)
            && say_at_once(alloc, &boxes, &set(1, 7, 0), &mut said)?.is_none()
            && is_said(&said, PUT_SEVEN),
    )
}

const PUT_TWO: &[Entry] = &[(14, &[Change::Put(30)]), (15, &[Change::Put(40)])];

// The last object of the mixture has parts 4 and 5; one of its boxes is set first.
fn said_of_a_mixture(alloc: Global) -> Result<bool, NotRun> {
    let mixture = mixture(alloc)?;
    let mut said = Said::new(alloc);
    let first = say_at_once(alloc, &mixture, &set(1, 7, 0), &mut said)?.is_none()
        && is_said(&said, PUT_SEVEN);
    let second = say_at_once(alloc, &mixture, &set(3, 30, 40), &mut said)?.is_none()
        && is_said(&said, PUT_TWO);
    Ok(first && second && say_at_once(alloc, &mixture, &get(3), &mut said)? == Some(14))
}

// Whether it is said that these updates are done, and that nothing was observed.
fn is_said(said: &Said, wanted: &[Entry]) -> bool {
    matches!(said.reply, Reply::Done) && said.items.len() == 0 && are_updates(&said.updates, wanted)
}
