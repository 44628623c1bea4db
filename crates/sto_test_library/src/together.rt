//! Tasks side by side.
use crate::codes::{GiveUp, Swap};
use std::alloc::Global;
use std::thread::Threads;
use sto_library::{Done, Either, Schema, StoreError, TaskError, Times, value_of};

#[test]
fn each_task_gives_its_own_on_any_number_of_threads(rt: HostRuntime) {
    for threads in [0, 1, 2, 3, 5, 9] {
        assert_eq!(rt;
            swapped_by_five(&rt, rt.alloc(), threads),
            Some([8, 7, 6, 5, 4])
        );
    }
}

// Each task swaps the value of a box of its own, again and again: what each gave last, which is what its box holds at the end.
fn swapped_by_five<R: Threads + Sync>(rt: &R, alloc: Global, threads: u32) -> Option<[i64; 5]> {
    let mut schema = Schema::new(alloc);
    let a = schema.boxed(1).ok()?;
    let b = schema.boxed(1).ok()?;
    let c = schema.boxed(1).ok()?;
    let d = schema.boxed(1).ok()?;
    let e = schema.boxed(1).ok()?;
    let mut store = schema.open(alloc, 6).ok()?;
    let tasks = [
        Times(20, Swap(a, 8)),
        Times(20, Swap(b, 7)),
        Times(20, Swap(c, 6)),
        Times(20, Swap(d, 5)),
        Times(20, Swap(e, 4)),
    ];
    let told = store.run_tasks(rt, alloc, threads, &tasks).ok()?;
    let Ok(rows) = store.close(alloc) else {
        return None;
    };
    let mut gave = [0; 5];
    for place in 0..5u32 {
        let Some(Ok(Done::Gave(value))) = told.get(place as usize) else {
            return None;
        };
        if value_of(&rows, place) != Some(*value) {
            return None;
        }
        gave[place as usize] = *value;
    }
    Some(gave)
}

#[test]
fn no_task_gives_nothing(rt: HostRuntime) {
    assert_eq!(rt; given_by_none(&rt, rt.alloc()), Some((0, 1)));
}

// How many things no task gives, and how many workers rest after that.
fn given_by_none<R: Threads + Sync>(rt: &R, alloc: Global) -> Option<(usize, u32)> {
    let mut schema = Schema::new(alloc);
    let of = schema.boxed(7).ok()?;
    let mut store = schema.open(alloc, 1).ok()?;
    let tasks = [Times(1, Swap(of, 8))];
    let told = store.run_tasks(rt, alloc, 4, &tasks[..0]).ok()?;
    Some((told.len(), store.resting()))
}

#[test]
fn tasks_want_a_worker_each(rt: HostRuntime) {
    assert_eq!(rt;
        is_refused_with_one(&rt, rt.alloc()),
        Some((true, 1, Some(7)))
    );
}

// Two tasks of one worker: whether they are refused, how many workers rest then, and what the box holds.
fn is_refused_with_one<R: Threads + Sync>(
    rt: &R,
    alloc: Global,
) -> Option<(bool, u32, Option<i64>)> {
    let mut schema = Schema::new(alloc);
    let of = schema.boxed(7).ok()?;
    let mut store = schema.open(alloc, 1).ok()?;
    let task = Times(1, Swap(of, 8));
    let told = store.run_tasks(rt, alloc, 2, &[task, task]);
    let refused = matches!(told, Err(TaskError::NoWorker));
    let resting = store.resting();
    let Ok(rows) = store.close(alloc) else {
        return None;
    };
    Some((refused, resting, value_of(&rows, 0)))
}

#[test]
fn tasks_of_two_kinds_give_each_its_own(rt: HostRuntime) {
    assert_eq!(rt; given_by_two_kinds(&rt, rt.alloc()), Some((7, true)));
}

// One task swaps the value of a box once, and one gives up.
fn given_by_two_kinds<R: Threads + Sync>(rt: &R, alloc: Global) -> Option<(i64, bool)> {
    let mut schema = Schema::new(alloc);
    let of = schema.boxed(7).ok()?;
    let mut store = schema.open(alloc, 2).ok()?;
    let tasks = [
        Either::Left(Times(1, Swap(of, 8))),
        Either::Right(Times(2, GiveUp(of))),
    ];
    let told = store.run_tasks(rt, alloc, 2, &tasks).ok()?;
    let Some(Either::Left(Ok(Done::Gave(value)))) = told.first() else {
        return None;
    };
    let Some(Either::Right(Ok(done))) = told.get(1) else {
        return None;
    };
    Some((*value, matches!(done, Done::Cancelled(_))))
}

#[test]
fn an_error_of_tasks_is_one_of_the_store(rt: HostRuntime) {
    assert!(rt;
        matches!(
            StoreError::from(TaskError::NoWorker),
            StoreError::Task(TaskError::NoWorker)
        )
    );
}
