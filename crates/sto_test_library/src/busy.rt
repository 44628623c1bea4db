//! A worker that another one disturbs in each of its attempts.
use crate::codes::Swap;
use std::alloc::Global;
use sto_library::{
    AbortCause, AttemptWatch, BoxId, Objects, Schema, StoreWorker, TransactionError, Waits,
};

// Has another worker write a box before each event of an attempt.
#[derive(Drop)]
struct Meddler<'s> {
    other: StoreWorker<'s, Objects>,
    of: BoxId,
}

impl AttemptWatch for Meddler<'_> {
    fn before_event(&mut self, _events: u64) {
        let _told = self.other.run_with(1, &mut Waits::new(), &Swap(self.of, 3));
    }

    fn before_retry(&mut self) {}
}

#[test]
fn busy_tells_of_the_last_try(rt: HostRuntime) {
    assert_eq!(rt; disturbed(rt.alloc()), Some((true, true)));
}

// Whether a worker that was disturbed was busy by a change of the second object, and whether its error says so.
fn disturbed(alloc: Global) -> Option<(bool, bool)> {
    let mut schema = Schema::new(alloc);
    let _first = schema.boxed(7).ok()?;
    let of = schema.boxed(7).ok()?;
    let mut store = schema.open(alloc, 2).ok()?;
    let one = store.hire()?;
    let other = store.hire()?;
    let mut worker = store.worker(alloc, one);
    let mut meddler = Meddler {
        other: store.worker(alloc, other),
        of,
    };
    let Err(error) = worker.run_with(2, &mut meddler, &Swap(of, 9)) else {
        return None;
    };
    let last = AbortCause::Changed { object: 1 };
    let named = matches!(error, TransactionError::Busy { tries: 2, last: cause } if cause == last);
    let text = format!(in alloc; "{error}").ok()?;
    let told = text.as_str()
        == "busy: all 2 tries met another transaction; the last found object 1 changed";
    Some((named, told))
}
