//! What a store and its workers answer, beside what their transactions give.
use crate::codes::{GiveUp, Swap, Unwanted};
use std::alloc::Global;
use sto_library::{
    BoxId, CloseError, CounterId, Done, LookError, Objects, PlanError, Schema, SharedStore,
    Snapshot, SnapshotValues, Waits, total_of, value_of,
};

// A store of a box that holds 7 and a counter that holds 5, with so many workers.
fn opened(alloc: Global, workers: u32) -> Option<(SharedStore<Objects>, BoxId, CounterId)> {
    let mut schema = Schema::new(alloc);
    let of = schema.boxed(7).ok()?;
    let sales = schema.counter(5).ok()?;
    let store = schema.open(alloc, workers).ok()?;
    Some((store, of, sales))
}

#[test]
fn an_array_before_a_counter_is_refused(rt: HostRuntime) {
    let mut schema = Schema::new(rt.alloc());
    assert!(rt; schema.array(3, 2).is_ok());
    assert_eq!(rt; schema.counter(1), Err(PlanError::OutOfOrder));
    assert!(rt; schema.array(1, 0).is_ok_and(|of| of.number == 1));
}

#[test]
fn a_look_sees_what_a_worker_wrote(rt: HostRuntime) {
    assert_eq!(rt; looked_at(rt.alloc()), Some((held(7, 5), held(8, 5))));
}

fn held(value: i64, count: i64) -> SnapshotValues<1, 1> {
    SnapshotValues {
        boxes: [value],
        counters: [count],
    }
}

// What two looks gave, before a worker wrote and after.
fn looked_at(alloc: Global) -> Option<(SnapshotValues<1, 1>, SnapshotValues<1, 1>)> {
    let (mut store, of, sales) = opened(alloc, 1)?;
    let code = Snapshot {
        boxes: [of],
        counters: [sales],
    };
    let Ok(Done::Gave(before)) = store.look(alloc, &code) else {
        return None;
    };
    let Ok(Done::Gave(7)) = store.look(alloc, &Swap(of, 8)) else {
        return None;
    };
    match store.look(alloc, &code) {
        Ok(Done::Gave(after)) => Some((before, after)),
        _ => None,
    }
}

#[test]
fn a_look_wants_a_worker(rt: HostRuntime) {
    assert_eq!(rt; is_refused_without_worker(rt.alloc()), Some((0, true, 1)));
}

// How many workers rest while one is hired, whether a look is refused then, and how many rest once it is back.
fn is_refused_without_worker(alloc: Global) -> Option<(u32, bool, u32)> {
    let (mut store, of, _sales) = opened(alloc, 1)?;
    let worker = store.hire()?;
    let resting = store.resting();
    let refused = matches!(store.look(alloc, &Swap(of, 8)), Err(LookError::NoWorker));
    store.back(worker).ok()?;
    Some((resting, refused, store.resting()))
}

#[test]
fn a_hired_worker_runs(rt: HostRuntime) {
    assert_eq!(rt; run_by_hand(rt.alloc()), Some((7, 8, true, 4)));
}

// What two runs of a hired worker gave, whether one that gave up was told why, and how many attempts all of them took.
fn run_by_hand(alloc: Global) -> Option<(i64, i64, bool, u64)> {
    let (mut store, of, _sales) = opened(alloc, 1)?;
    let idle = store.hire()?;
    let mut worker = store.worker(alloc, idle);
    let began = worker.left();
    let Ok(Done::Gave(first)) = worker.run(&Swap(of, 8)) else {
        return None;
    };
    let gave_up = matches!(
        worker.run(&GiveUp(of)),
        Ok(Done::Cancelled(Unwanted { value: 8 }))
    );
    let Ok(Done::Gave(second)) = worker.run_with(1, &mut Waits::new(), &Swap(of, 9)) else {
        return None;
    };
    let Ok(Done::Gave(9)) = worker.run(&Swap(of, 10)) else {
        return None;
    };
    let taken = began.checked_sub(worker.left())?;
    let idle = worker.rest();
    store.back(idle).ok()?;
    Some((first, second, gave_up, taken))
}

#[test]
fn a_store_is_closed_by_all_its_workers(rt: HostRuntime) {
    assert_eq!(rt; closed_by_hand(rt.alloc()), Some((true, Some(8), Some(5))));
}

// Whether a store came back that lacked a worker, and what its objects held once it was closed with it.
fn closed_by_hand(alloc: Global) -> Option<(bool, Option<i64>, Option<i64>)> {
    let (mut store, of, _sales) = opened(alloc, 2)?;
    let Ok(Done::Gave(7)) = store.look(alloc, &Swap(of, 8)) else {
        return None;
    };
    let worker = store.hire()?;
    let Err(CloseError::Missing(mut store)) = store.close(alloc) else {
        return None;
    };
    let lacked = store.resting() == 1;
    store.back(worker).ok()?;
    match store.close(alloc) {
        Ok(rows) => Some((lacked, value_of(&rows, 0), total_of(&rows, 1))),
        Err(_) => None,
    }
}
