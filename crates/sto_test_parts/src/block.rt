//! A block of three places.
use std::alloc::Global;
use sto_block::{count_between, find, free, places_between};
use sto_part::NoMemory;

const KEYS: &[i64] = &[1, 5, 0, 5, 1, 2];

const FROM_TWO_TO_FIVE: &[u32] = &[2, 0];

#[test]
fn example_three_places(rt: HostRuntime) {
    let places = [
        find(KEYS, 5),
        find(KEYS, 7),
        free(KEYS),
        Some(count_between(KEYS, 2, 5)),
    ];
    assert_eq!(rt; places, [Some(0), None, Some(1), Some(2)]);
    assert_eq!(rt; are_in_order_of_keys(rt.alloc()), Ok(true));
}

fn are_in_order_of_keys(alloc: Global) -> Result<bool, NoMemory> {
    let places = places_between(alloc, KEYS, 2, 5)?;
    Ok(places.as_slice() == FROM_TWO_TO_FIVE)
}
