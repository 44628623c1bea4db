//! How many keys a range has, as far as they are known.
ghost use Rattle.std.specs.Prelude.{◌≡◌, ◌*◌, ◌+◌, ◌^◌, ◌<◌, ◌≤◌, ℤ, List, length};
ghost use Rattle.sto_type.specs.Known.{known, IsPartOf};
ghost use Rattle.sto_tree.specs.Layout.{parts_of};
ghost use Rattle.sto_tree.specs.Valid.{IsTree};
ghost use Rattle.sto_tree.specs.KnownCount.{is_counted as is_counted_at, counted_keys, counted_leaf, known_count as the_known_count};

use crate::listing::{key_at, meets};
use crate::said::key_part;
use crate::search::is_present;
use sto_type::KnownParts;

/// How many keys from one number to another the leaves have, as far as they are known.
pub(crate) fn known_count(
    leaves: u32,
    directory: &[i64],
    cache: &KnownParts<'_>,
    from: i64,
    to: i64,
) -> u32
    requires few { parts_of leaves < 2 ^ 32 }
    requires width { length directory.now ≡ 3 * leaves }
    requires part { (d : List (List ℤ)) × IsTree leaves d × IsPartOf (known cache.now) d }
    ensures { result ≡ the_known_count leaves (known cache.now) directory.now from to }
{
    let mut found = 0;
    for leaf in 0..leaves {
        found += count_leaf(leaves, directory, cache, from, to, leaf);
    }
    found
}

// How many a leaf has.
fn count_leaf(
    leaves: u32,
    directory: &[i64],
    cache: &KnownParts<'_>,
    from: i64,
    to: i64,
    leaf: u32,
) -> u32
    requires few { parts_of leaves < 2 ^ 32 }
    requires width { length directory.now ≡ 3 * leaves }
    requires part { (d : List (List ℤ)) × IsTree leaves d × IsPartOf (known cache.now) d }
    requires below { leaf < leaves }
    ensures count { result ≡ counted_leaf (known cache.now) directory.now from to leaf }
    ensures few { result ≤ 8 }
{
    if !meets(directory, leaf, from, to) {
        return 0;
    }
    let Some(keys) = cache.get(key_part(leaf)) else {
        return 0;
    };
    count_keys(keys, from, to)
}

// How many keys from one number to another a key part has.
fn count_keys(keys: &[i64], from: i64, to: i64) -> u32
    requires { length keys.now ≡ 16 }
    ensures count { result ≡ counted_keys keys.now from to 8 }
    ensures few { result ≤ 8 }
{
    let mut found = 0;
    for place in 0..8 {
        if is_counted(keys, place, from, to) {
            found += 1;
        }
    }
    found
}

// Whether a place is present with a key from one number to another.
fn is_counted(keys: &[i64], place: u32, from: i64, to: i64) -> bool
    requires { 2 * place + 1 < length keys.now }
    ensures { result ≡ is_counted_at keys.now from to place }
{
    is_present(keys, place) && (from <= key_at(keys, place) && key_at(keys, place) <= to)
}
