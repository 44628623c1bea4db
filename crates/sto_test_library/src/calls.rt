//! What each call of an object answers.
use crate::codes::{
    ArrayCalls, ArrayWrites, BoxCalls, CounterCalls, HashReads, HashWrites, TreeReads, TreeWrites,
    VectorReads, VectorWrites,
};
use std::alloc::Global;
use sto_library::{Action, Done, Objects, Schema, SharedStore};

// A store of these objects with one worker.
fn opened(alloc: Global, schema: Schema) -> Option<SharedStore<Objects>> {
    schema.open(alloc, 1).ok()
}

// What code gives that a worker of the store runs.
fn given<K: Action>(alloc: Global, store: &mut SharedStore<Objects>, code: &K) -> Option<K::Out>
where
    K::Out: Drop,
    K::Reason: Drop,
{
    match store.look(alloc, code) {
        Ok(Done::Gave(out)) => Some(out),
        _ => None,
    }
}

#[test]
fn a_box_answers(rt: HostRuntime) {
    assert_eq!(rt; told_by_a_box(rt.alloc()), Some((7, 8)));
}

fn told_by_a_box(alloc: Global) -> Option<(i64, i64)> {
    let mut schema = Schema::new(alloc);
    let of = schema.boxed(7).ok()?;
    let mut store = opened(alloc, schema)?;
    given(alloc, &mut store, &BoxCalls(of))
}

#[test]
fn a_counter_answers(rt: HostRuntime) {
    assert_eq!(rt;
        told_by_a_counter(rt.alloc()),
        Some((true, false, false, 9))
    );
}

fn told_by_a_counter(alloc: Global) -> Option<(bool, bool, bool, i64)> {
    let mut schema = Schema::new(alloc);
    let of = schema.counter(5).ok()?;
    let mut store = opened(alloc, schema)?;
    given(alloc, &mut store, &CounterCalls(of))
}

#[test]
fn an_array_answers(rt: HostRuntime) {
    assert_eq!(rt;
        told_by_an_array(rt.alloc()),
        Some((Some(2), true, false, Some(6)))
    );
}

fn told_by_an_array(alloc: Global) -> Option<(Option<i64>, bool, bool, Option<i64>)> {
    let mut schema = Schema::new(alloc);
    let of = schema.array(3, 2).ok()?;
    let mut store = opened(alloc, schema)?;
    given(alloc, &mut store, &ArrayCalls(of))
}

#[test]
fn an_array_adds(rt: HostRuntime) {
    assert_eq!(rt; added_in_an_array(rt.alloc()), Some((true, Some(7))));
}

fn added_in_an_array(alloc: Global) -> Option<(bool, Option<i64>)> {
    let mut schema = Schema::new(alloc);
    let of = schema.array(3, 2).ok()?;
    let mut store = opened(alloc, schema)?;
    given(alloc, &mut store, &ArrayWrites(of))
}

#[test]
fn a_hash_table_answers(rt: HostRuntime) {
    let told = told_by_a_hash_table(rt.alloc());
    assert_eq!(rt;
        told,
        Some(((true, true, false, Some(60)), (true, 2, None)))
    );
}

// What three writes and a read answered, and then three reads of another transaction.
type ByHash = ((bool, bool, bool, Option<i64>), (bool, i64, Option<i64>));

fn told_by_a_hash_table(alloc: Global) -> Option<ByHash> {
    let mut schema = Schema::new(alloc);
    let of = schema.hash(4, 2).ok()?;
    let mut store = opened(alloc, schema)?;
    let written = given(alloc, &mut store, &HashWrites(of))?;
    let read = given(alloc, &mut store, &HashReads(of))?;
    Some((written, read))
}

#[test]
fn a_tree_answers(rt: HostRuntime) {
    let told = told_by_a_tree(rt.alloc());
    assert_eq!(rt;
        told,
        Some(((true, true, false, Some(80)), (Some(8), 2, 2)))
    );
}

type ByTree = ((bool, bool, bool, Option<i64>), (Option<i64>, i64, i64));

fn told_by_a_tree(alloc: Global) -> Option<ByTree> {
    let mut schema = Schema::new(alloc);
    let of = schema.tree(2).ok()?;
    let mut store = opened(alloc, schema)?;
    let written = given(alloc, &mut store, &TreeWrites(of))?;
    let read = given(alloc, &mut store, &TreeReads(of))?;
    Some((written, read))
}

#[test]
fn a_vector_answers(rt: HostRuntime) {
    let told = told_by_a_vector(rt.alloc());
    assert_eq!(rt;
        told,
        Some(((true, true, false, Some(8)), (Some(7), true, 1)))
    );
}

type ByVector = ((bool, bool, bool, Option<i64>), (Option<i64>, bool, i64));

fn told_by_a_vector(alloc: Global) -> Option<ByVector> {
    let mut schema = Schema::new(alloc);
    let of = schema.vector(2).ok()?;
    let mut store = opened(alloc, schema)?;
    let written = given(alloc, &mut store, &VectorWrites(of))?;
    let read = given(alloc, &mut store, &VectorReads(of))?;
    Some((written, read))
}
