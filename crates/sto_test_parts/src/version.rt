//! A version as a writer takes it and lets it go.
use sto_version::{FREE0, Version};

// A part as the writer with ticket 3 finds it, takes it and lets it go.
#[test]
fn example_of_a_writer(rt: HostRuntime) {
    let held = FREE0.locked();
    let free = Version::released(3);
    let locked = [FREE0.is_locked(), held.is_locked(), free.is_locked()];
    assert_eq!(rt; locked, [false, true, false]);
    let tickets = [FREE0.ticket(), held.ticket(), free.ticket()];
    assert_eq!(rt; tickets, [0, 0, 3]);
    assert_eq!(rt; free.locked(), Version(7));
}
