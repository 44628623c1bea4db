//! The rows of a range, as far as they are known.
ghost use Rattle.std.specs.Prelude.{◌≡◌, ◌*◌, ◌+◌, ◌^◌, ◌<◌, ℤ, List, length, IfOk, OnOk};
ghost use Rattle.sto_type.specs.Known.{known, IsPartOf};
ghost use Rattle.sto_tree.specs.Layout.{parts_of, key_part as the_key_part, value_part as the_value_part, place_slot};
ghost use Rattle.sto_tree.specs.Valid.{IsTree};
ghost use Rattle.sto_tree.specs.KnownRows.{known_value, known_values, with_places, with_part, known_rows as the_known_rows};

use crate::get::only_word;
use crate::listing::{key_at, meets, put_row};
use crate::said::{key_part, value_part};
use crate::search::is_present;
use std::alloc::Global;
use sto_model::Rows;
use sto_part::NoMemory;
use sto_type::KnownParts;

/// The rows of the leaves that have some number from one to another, as far as they are known.
pub(crate) fn known_rows(
    alloc: Global,
    leaves: u32,
    directory: &[i64],
    cache: &KnownParts<'_>,
    from: i64,
    to: i64,
) -> Result<Rows, NoMemory>
    requires few { parts_of leaves < 2 ^ 32 }
    requires width { length directory.now ≡ 3 * leaves }
    requires part { (d : List (List ℤ)) × IsTree leaves d × IsPartOf (known cache.now) d }
    ensures { IfOk result (λ r. r.items ≡ the_known_rows leaves (known cache.now) directory.now from to) }
{
    let mut rows = Rows::new(alloc);
    for leaf in 0..leaves {
        if meets(directory, leaf, from, to) {
            add_leaf(&mut rows, leaves, cache, leaf)?;
        }
    }
    Ok(rows)
}

// Adds the rows of a leaf, as far as they are known.
fn add_leaf(rows: &mut Rows, leaves: u32, cache: &KnownParts<'_>, leaf: u32) -> Result<(), NoMemory>
    requires few { parts_of leaves < 2 ^ 32 }
    requires part { (d : List (List ℤ)) × IsTree leaves d × IsPartOf (known cache.now) d }
    requires leaf { leaf < leaves }
    ensures { OnOk result (rows.new.items ≡ with_part rows.old.items (known cache.now (the_key_part leaf))
        (known_values (known cache.now) leaf)) }
{
    match cache.get(key_part(leaf)) {
        Some(keys) => add_places(rows, leaves, cache, leaf, keys),
        None => Ok(()),
    }
}

// Adds the rows of the places of a key part.
fn add_places(
    rows: &mut Rows,
    leaves: u32,
    cache: &KnownParts<'_>,
    leaf: u32,
    keys: &[i64],
) -> Result<(), NoMemory>
    requires few { parts_of leaves < 2 ^ 32 }
    requires part { (d : List (List ℤ)) × IsTree leaves d × IsPartOf (known cache.now) d }
    requires leaf { leaf < leaves }
    requires keys { length keys.now ≡ 16 }
    ensures { OnOk result (rows.new.items ≡ with_places rows.old.items keys.now (known_values (known cache.now) leaf) 8) }
{
    for place in 0..8 {
        if let Some((key, value)) = known_row(leaves, cache, leaf, keys, place) {
            put_row(rows, key, value)?;
        }
    }
    Ok(())
}

// The row at a place of a key part.
fn known_row(
    leaves: u32,
    cache: &KnownParts<'_>,
    leaf: u32,
    keys: &[i64],
    place: u32,
) -> Option<(i64, i64)>
    requires few { parts_of leaves < 2 ^ 32 }
    requires part { (d : List (List ℤ)) × IsTree leaves d × IsPartOf (known cache.now) d }
    requires leaf { leaf < leaves }
    requires keys { length keys.now ≡ 16 }
    requires place { place < 8 }
    ensures { result ≡ place_slot keys.now (known_values (known cache.now) leaf) place }
{
    if is_present(keys, place) {
        Some((key_at(keys, place), value_known(leaves, cache, leaf, place)))
    } else {
        None
    }
}

// The value of a place, 0 where it is not known.
fn value_known(leaves: u32, cache: &KnownParts<'_>, leaf: u32, place: u32) -> i64
    requires few { parts_of leaves < 2 ^ 32 }
    requires part { (d : List (List ℤ)) × IsTree leaves d × IsPartOf (known cache.now) d }
    requires leaf { leaf < leaves }
    requires place { place < 8 }
    ensures { result ≡ known_value (known cache.now (the_value_part leaf place)) }
{
    let Some(words) = cache.get(value_part(leaf, place)) else {
        return 0;
    };
    only_word(words)
}
