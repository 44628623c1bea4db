//! Numbers that are claimed.
use sto_table::{OpenedClaims, close_claims, open_claims};

// Two numbers are to be claimed, and the third claim finds none.
#[test]
fn example_of_claims(rt: HostRuntime) {
    let OpenedClaims { claims, claimers } = open_claims(rt.alloc(), 2, 1).expect(&rt, "memory");
    let mut claimers = claimers;
    let mut claimer = claimers.pop().expect(&rt, "a claimer");
    assert_eq!(rt; claims.claim(&mut claimer), Some(0));
    assert_eq!(rt; claims.claim(&mut claimer), Some(1));
    assert_eq!(rt; claims.claim(&mut claimer), None);
    assert_eq!(rt; close_claims(claims, claimer), 3);
}
