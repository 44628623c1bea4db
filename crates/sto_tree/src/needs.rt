//! What a count or a scan needs first.
ghost use Rattle.std.specs.Prelude.{◌≡◌, ◌<◌, ◌*◌, ◌+◌, ◌^◌, ℕ, ℤ, true, Some, List as Seq, [], length, slice_index, IfOk, IsTrue};
ghost use Rattle.sto_type.specs.Known.{known, IsPartOf};
ghost use Rattle.sto_type.specs.Reading.{need_of};
ghost use Rattle.sto_tree.specs.Layout.{parts_of, is_present as is_present_at, key_part as the_key_part, value_part as the_value_part};
ghost use Rattle.sto_tree.specs.Valid.{IsTree};
ghost use Rattle.sto_tree.specs.Between.{between_each};
ghost use Rattle.sto_tree.specs.Walked.{leaf_need, AreValuesKnown};

use crate::listing::{from_in, to_in};
use crate::said::{key_part, value_part};
use crate::search::is_present;
use crate::seen::unknown_in;
use crate::walk::values_between;
use std::alloc::Global;
use sto_part::NoMemory;
use sto_type::KnownParts;

// Whether the value part at a place is known, where the place is present.
fn is_value_known(cache: &KnownParts<'_>, keys: &[i64], leaf: u32, place: u32) -> bool
    requires width { length keys.now ≡ 16 }
    requires part { the_key_part leaf + 8 < 2 ^ 32 }
    requires place { place < 8 }
    ensures { IsTrue result → is_present_at keys.now place ≡ true
        → (ws : Seq ℤ) × (known cache.now (the_value_part leaf place) ≡ Some ws) }
{
    if !is_present(keys, place) {
        return true;
    }
    let Some(_words) = cache.get(value_part(leaf, place)) else {
        return false;
    };
    true
}

// Whether the value part of each key of a leaf is known.
fn are_values_known(cache: &KnownParts<'_>, keys: &[i64], leaf: u32) -> bool
    requires width { length keys.now ≡ 16 }
    requires part { the_key_part leaf + 8 < 2 ^ 32 }
    ensures { IsTrue result → AreValuesKnown (known cache.now) leaf keys.now 8 }
{
    for place in 0..8 {
        if !is_value_known(cache, keys, leaf, place) {
            return false;
        }
    }
    true
}

// The part that a count or a scan needs first of a leaf.
//
// It is asked again and again of leaves of which all is known, and puts no values in order there.
fn needed_in(
    alloc: Global,
    directory: &[i64],
    cache: &KnownParts<'_>,
    leaf: u32,
    from: i64,
    to: i64,
    scans: bool,
) -> Result<Option<u32>, NoMemory>
    requires width { 3 * leaf + 2 < length directory.now }
    requires part { the_key_part leaf + 8 < 2 ^ 32 }
    requires keys { (ks : Seq ℤ) → known cache.now (the_key_part leaf) ≡ Some ks → length ks ≡ 16 }
    ensures { IfOk result (λ o. leaf_need (known cache.now) scans directory.now from to leaf ≡ o) }
{
    let Some(keys) = cache.get(key_part(leaf)) else {
        return Ok(Some(key_part(leaf)));
    };
    if !scans {
        return Ok(None);
    }
    if are_values_known(cache, keys, leaf) {
        return Ok(None);
    }
    let first = from_in(directory, leaf, from);
    let last = to_in(directory, leaf, to);
    let values = values_between(alloc, keys, leaf, first, last)?;
    Ok(unknown_in(cache, values.as_slice()))
}

/// The part that a count or a scan needs first of leaves one after the other.
pub(crate) fn first_needed(
    alloc: Global,
    leaves: u32,
    directory: &[i64],
    cache: &KnownParts<'_>,
    listed: &[u32],
    from: i64,
    to: i64,
    scans: bool,
) -> Result<Option<u32>, NoMemory>
    requires few { parts_of leaves < 2 ^ 32 }
    requires width { length directory.now ≡ 3 * leaves }
    requires below { (n : ℕ) → n < length listed.now → slice_index listed.now n < leaves }
    requires part { (d : Seq (Seq ℤ)) × IsTree leaves d × IsPartOf (known cache.now) d }
    ensures { IfOk result (λ o. need_of (between_each scans directory.now from to listed.now []) (known cache.now) ≡ o) }
{
    for leaf in listed {
        if let Some(part) = needed_in(alloc, directory, cache, *leaf, from, to, scans)? {
            return Ok(Some(part));
        }
    }
    Ok(None)
}
