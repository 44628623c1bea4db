//! Leaves that are seen one after the other.
ghost use Rattle.std.specs.Prelude.{◌≡◌, ◌<◌, ◌*◌, ◌+◌, ◌^◌, ℕ, ℤ, Some, None, List as Seq, [], ◌++◌, length, map, slice_index, IfOk, OnOk, MatchResult};
ghost use Rattle.sto_type.specs.Known.{known, IsPartOf};
ghost use Rattle.sto_type.specs.Reading.{need_of, items_of};
ghost use Rattle.sto_tree.specs.Layout.{parts_of, key_part as the_key_part};
ghost use Rattle.sto_tree.specs.Valid.{IsTree};
ghost use Rattle.sto_tree.specs.Next.{leaf_seen};
ghost use Rattle.sto_tree.specs.Between.{value_part_of, values_between as the_values_between, between_each};
ghost use Rattle.sto_tree.specs.Walked.{IsSaid, leaf_need, leaf_observed};

use crate::listing::{from_in, key_rows, to_in};
use crate::needs::first_needed;
use crate::said::{compares, key_part, value_part};
use crate::search::place_of;
use crate::seen::{add_item, see_all};
use std::alloc::Global;
use sto_item::{Item, Items};
use sto_model::Pairs;
use sto_part::{List, NoMemory, Test};
use sto_type::{AnswerPool, KnownParts};

/// Observes the range of a leaf from one number to another, and its key part.
pub(crate) fn see_keys(
    items: &mut Items,
    directory: &[i64],
    leaf: u32,
    from: i64,
    to: i64,
) -> Result<(), NoMemory>
    requires width { 3 * leaf + 2 < length directory.now }
    requires part { the_key_part leaf < 2 ^ 32 }
    ensures { OnOk result (items.new.items ≡ items.old.items ++ leaf_seen directory.now from to leaf) }
{
    let from = from_in(directory, leaf, from);
    let to = to_in(directory, leaf, to);
    add_item(items, compares(1, 3 * leaf, Test::Eq, 1))?;
    add_item(items, compares(1, 3 * leaf + 1, Test::Le, from))?;
    add_item(items, compares(1, 3 * leaf + 2, Test::Ge, to))?;
    add_item(items, Item::Seen(key_part(leaf)))?;
    Ok(())
}

/// The value parts of the keys of a leaf from one to another, in rising key.
pub(crate) fn values_between(
    alloc: Global,
    keys: &[i64],
    leaf: u32,
    from: i64,
    to: i64,
) -> Result<List<u32>, NoMemory>
    requires width { length keys.now ≡ 16 }
    requires part { the_key_part leaf + 8 < 2 ^ 32 }
    ensures { IfOk result (λ l. l.items ≡ the_values_between leaf keys.now from to) }
{
    let rows = key_rows(alloc, keys)?;
    let pairs = rows.pairs_between(alloc, from, to)?;
    value_parts(alloc, keys, leaf, &pairs)
}

// The value parts of keys.
fn value_parts(alloc: Global, keys: &[i64], leaf: u32, pairs: &Pairs) -> Result<List<u32>, NoMemory>
    requires width { length keys.now ≡ 16 }
    requires part { the_key_part leaf + 8 < 2 ^ 32 }
    ensures { IfOk result (λ l. l.items ≡ map (λ r. value_part_of leaf keys.now r.0) pairs.now.items) }
{
    let mut parts = List::new(alloc);
    for place in 0..pairs.len() {
        parts.push(value_part_at(keys, leaf, pairs.get(place).0))?;
    }
    Ok(parts)
}

// The value part of a key.
fn value_part_at(keys: &[i64], leaf: u32, key: i64) -> u32
    requires width { length keys.now ≡ 16 }
    requires part { the_key_part leaf + 8 < 2 ^ 32 }
    ensures { result ≡ value_part_of leaf keys.now key }
{
    match place_of(keys, key) {
        Some(place) => value_part(leaf, place),
        None => value_part(leaf, 0),
    }
}

// Observes a leaf as a count does, or as a scan, where nothing more of it is needed.
fn see_leaf(
    alloc: Global,
    items: &mut Items,
    directory: &[i64],
    cache: &KnownParts<'_>,
    leaf: u32,
    from: i64,
    to: i64,
    scans: bool,
) -> Result<(), NoMemory>
    requires width { 3 * leaf + 2 < length directory.now }
    requires part { the_key_part leaf + 8 < 2 ^ 32 }
    requires keys { (ks : Seq ℤ) → known cache.now (the_key_part leaf) ≡ Some ks → length ks ≡ 16 }
    requires need { leaf_need (known cache.now) scans directory.now from to leaf ≡ None }
    ensures { OnOk result (items.new.items ≡ items.old.items ++ leaf_observed (known cache.now) scans directory.now from to leaf) }
{
    let Some(keys) = cache.get(key_part(leaf)) else {
        unreachable!()
    };
    see_keys(items, directory, leaf, from, to)?;
    if !scans {
        return Ok(());
    }
    let first = from_in(directory, leaf, from);
    let last = to_in(directory, leaf, to);
    let values = values_between(alloc, keys, leaf, first, last)?;
    see_all(items, values.as_slice())
}

// What a count or a scan observes of leaves one after the other, where nothing more of them is needed.
fn observed_in(
    alloc: Global,
    pool: &mut AnswerPool,
    leaves: u32,
    directory: &[i64],
    cache: &KnownParts<'_>,
    listed: &[u32],
    from: i64,
    to: i64,
    scans: bool,
) -> Result<Items, NoMemory>
    requires few { parts_of leaves < 2 ^ 32 }
    requires width { length directory.now ≡ 3 * leaves }
    requires below { (n : ℕ) → n < length listed.now → slice_index listed.now n < leaves }
    requires part { (d : Seq (Seq ℤ)) × IsTree leaves d × IsPartOf (known cache.now) d }
    requires need { need_of (between_each scans directory.now from to listed.now []) (known cache.now) ≡ None }
    ensures { IfOk result (λ items. items.items ≡ items_of (between_each scans directory.now from to listed.now []) (known cache.now)) }
{
    let mut items = pool.items();
    for leaf in listed {
        see_leaf(alloc, &mut items, directory, cache, *leaf, from, to, scans)?;
    }
    Ok(items)
}

/// What a count or a scan observes of leaves one after the other, or the part that it needs first.
///
/// It is asked anew for each part that is needed, so what is observed is put together only once nothing is needed.
pub(crate) fn see_leaves(
    alloc: Global,
    pool: &mut AnswerPool,
    leaves: u32,
    directory: &[i64],
    cache: &KnownParts<'_>,
    listed: &[u32],
    from: i64,
    to: i64,
    scans: bool,
) -> Result<Result<Items, u32>, NoMemory>
    requires few { parts_of leaves < 2 ^ 32 }
    requires width { length directory.now ≡ 3 * leaves }
    requires below { (n : ℕ) → n < length listed.now → slice_index listed.now n < leaves }
    requires part { (d : Seq (Seq ℤ)) × IsTree leaves d × IsPartOf (known cache.now) d }
    ensures { let reading = between_each scans directory.now from to listed.now [] in IfOk result
        (λ r. MatchResult r (λ items. IsSaid reading (known cache.now) items.items) (λ p. need_of reading (known cache.now) ≡ Some p)) }
{
    match first_needed(alloc, leaves, directory, cache, listed, from, to, scans)? {
        Some(part) => Ok(Err(part)),
        None => {
            let items = observed_in(
                alloc, pool, leaves, directory, cache, listed, from, to, scans,
            )?;
            Ok(Ok(items))
        }
    }
}
