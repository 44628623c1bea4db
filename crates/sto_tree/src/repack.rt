//! The plan of a put that packs all rows anew.
ghost use Rattle.std.specs.Prelude.{◌≡◌, ◌<◌, ◌≤◌, ◌+◌, ◌*◌, ◌^◌, ℕ, ℤ, List as Seq, [], ◌∷◌, ◌++◌, length, None, IfOk, OnOk};
ghost use Rattle.std.specs.Int.{w64};
ghost use Rattle.std.specs.Int.RustNames.{FitsSigned};
ghost use Rattle.sto_item.specs.Pending.{AreUpdates};
ghost use Rattle.sto_type.specs.Known.{known, IsPartOf};
ghost use Rattle.sto_type.specs.Plans.{planned, IsPlan};
ghost use Rattle.sto_tree.specs.Layout.{parts_of, key_part as the_key_part, value_part as the_value_part};
ghost use Rattle.sto_tree.specs.Valid.{IsTree};
ghost use Rattle.sto_tree.specs.Put.{free_leaf as the_free_leaf};
ghost use Rattle.sto_tree.specs.Split.{in_threes};
ghost use Rattle.sto_tree.specs.Repack.{key_parts as the_key_parts, present_values_in, present_values as the_present_values, leaves_for, begins, ends, packed_ranges, packed_leaves, packed_updates};
ghost use Rattle.sto_tree.specs.Meaning.{tree_meaning, TreeTakes};
ghost use Rattle.sto_tree.specs.Found.{IsAtLeaf, IsCrowded};
ghost use Rattle.sto_tree.specs.Walked.{known_words};

use crate::changes::{filled_changes, push_three, push_update, push_values, word_change};
use crate::leaf::Leaf;
use crate::range::known_rows;
use crate::said::{compares, key_part, value_part};
use crate::search::is_present;
use crate::seen::{add_item, see_parts};
use std::alloc::Global;
use sto_item::{Item, Updates};
use sto_model::{Call, Operation, Reply, Rows};
use sto_part::{Change, List, NoMemory, Test, Update};
use sto_type::{Answer, AnswerPool, KnownParts};

/// What a put needs next where its leaf has no free place and all leaves are live, or what it comes to.
pub(crate) fn plan_repack(
    alloc: Global,
    pool: &mut AnswerPool,
    leaves: u32,
    call: &Call,
    cache: &KnownParts<'_>,
    found: Leaf<'_>,
) -> Result<Answer, NoMemory>
    requires few { parts_of leaves < 2 ^ 32 }
    requires takes { TreeTakes leaves call.now }
    requires put { call.now.operation ≡ Operation.Put }
    requires part { (d : Seq (Seq ℤ)) × IsTree leaves d × IsPartOf (known cache.now) d }
    requires at { IsAtLeaf leaves (known cache.now) call.now.a found.directory.now found.number found.keys.now }
    requires directory { length found.directory.now ≡ 3 * leaves }
    requires crowded { IsCrowded leaves (known cache.now) call.now.a found.keys.now }
    requires free { the_free_leaf leaves found.directory.now ≡ None }
    ensures { IfOk result (λ a. IsPlan (tree_meaning leaves) call.now (known cache.now) (planned a)) }
{
    let mut items = pool.items();
    add_item(&mut items, Item::Seen(1))?;
    let keys = key_parts(alloc, leaves)?;
    if let Some(part) = see_parts(&mut items, cache, keys.as_slice())? {
        return Ok(Answer::Need(part));
    }
    let values = present_values(alloc, leaves, cache)?;
    if let Some(part) = see_parts(&mut items, cache, values.as_slice())? {
        return Ok(Answer::Need(part));
    }
    add_item(&mut items, compares(0, 0, Test::Lt, (4 * leaves) as i64))?;
    let mut rows = known_rows(alloc, leaves, found.directory, cache, i64::MIN, i64::MAX)?;
    rows.put(call.a, call.b)?;
    let updates = packed(pool, leaves, &rows)?;
    Ok(Answer::Done {
        reply: Reply::Done,
        items,
        updates,
    })
}

// The key parts of all leaves.
fn key_parts(alloc: Global, leaves: u32) -> Result<List<u32>, NoMemory>
    requires { parts_of leaves < 2 ^ 32 }
    ensures { IfOk result (λ l. l.items ≡ the_key_parts leaves) }
{
    let mut parts = List::new(alloc);
    for leaf in 0..leaves {
        parts.push(key_part(leaf))?;
    }
    Ok(parts)
}

// The value parts of all present places of key parts that are known, rising.
fn present_values(alloc: Global, leaves: u32, cache: &KnownParts<'_>) -> Result<List<u32>, NoMemory>
    requires few { parts_of leaves < 2 ^ 32 }
    requires part { (d : Seq (Seq ℤ)) × IsTree leaves d × IsPartOf (known cache.now) d }
    ensures { IfOk result (λ l. l.items ≡ the_present_values (known_words (known cache.now)) leaves) }
{
    let mut parts = List::new(alloc);
    for leaf in 0..leaves {
        if let Some(keys) = cache.get(key_part(leaf)) {
            add_present(&mut parts, leaf, keys)?;
        }
    }
    Ok(parts)
}

// Adds the value parts of the present places of a leaf last.
fn add_present(parts: &mut List<u32>, leaf: u32, keys: &[i64]) -> Result<(), NoMemory>
    requires part { the_value_part leaf 8 < 2 ^ 32 }
    requires keys { length keys.now ≡ 16 }
    ensures { OnOk result (parts.new.items ≡ parts.old.items ++ present_values_in leaf keys.now 8) }
{
    for place in 0..8 {
        if is_present(keys, place) {
            add_part(parts, value_part(leaf, place))?;
        }
    }
    Ok(())
}

// Adds a part last.
fn add_part(parts: &mut List<u32>, part: u32) -> Result<(), NoMemory>
    ensures { OnOk result (parts.new.items ≡ parts.old.items ++ part ∷ []) }
{
    if parts.len() == u32::MAX {
        return Err(NoMemory);
    }
    parts.push(part)?;
    Ok(())
}

// The updates that make rows those of the tree, one more than it had.
fn packed(pool: &mut AnswerPool, leaves: u32, rows: &Rows) -> Result<Updates, NoMemory>
    requires few { parts_of leaves < 2 ^ 32 }
    requires ends { (j : ℕ) → j < leaves_for (length rows.now.items) → FitsSigned w64 (ends rows.now.items j) }
    requires ordered { AreUpdates (packed_updates leaves rows.now.items) }
    ensures { IfOk result (λ l. l.items ≡ packed_updates leaves rows.now.items) }
{
    let mut updates = pool.updates();
    let size = word_change(pool, Change::Add(1))?;
    push_update(&mut updates, 0, size)?;
    let ranges = packed_directory(pool, leaves, rows)?;
    push_update(&mut updates, 1, ranges)?;
    push_leaves(pool, &mut updates, leaves, rows)?;
    Ok(updates)
}

// Adds the updates of all leaves last.
fn push_leaves(
    pool: &mut AnswerPool,
    updates: &mut Updates,
    leaves: u32,
    rows: &Rows,
) -> Result<(), NoMemory>
    requires few { parts_of leaves < 2 ^ 32 }
    requires ordered { AreUpdates (updates.old.items ++ packed_leaves rows.now.items 0 leaves) }
    ensures { OnOk result (updates.new.items ≡ updates.old.items ++ packed_leaves rows.now.items 0 leaves) }
{
    for leaf in 0..leaves {
        let keys = filled_changes(pool, rows, leaf)?;
        push_update(updates, key_part(leaf), keys)?;
        push_values(pool, updates, leaf, rows, leaf)?;
    }
    Ok(())
}

// The directory anew.
fn packed_directory(pool: &mut AnswerPool, leaves: u32, rows: &Rows) -> Result<Update, NoMemory>
    requires few { parts_of leaves < 2 ^ 32 }
    requires ends { (j : ℕ) → j < leaves_for (length rows.now.items) → FitsSigned w64 (ends rows.now.items j) }
    ensures { IfOk result (λ l. l.items ≡ in_threes (packed_ranges rows.now.items) 0 leaves) }
{
    let mut update = pool.update();
    for leaf in 0..leaves {
        push_three(&mut update, range_of(rows, leaf))?;
    }
    Ok(update)
}

// The changes of one leaf's range.
fn range_of(rows: &Rows, leaf: u32) -> (Change, Change, Change)
    requires leaf { 4 * leaf + 8 < 2 ^ 32 }
    requires ends { (j : ℕ) → j < leaves_for (length rows.now.items) → FitsSigned w64 (ends rows.now.items j) }
    ensures { result ≡ packed_ranges rows.now.items leaf }
{
    if leaf < leaves_taken(rows) {
        (
            Change::Put(1),
            Change::Put(begin_of(rows, leaf)),
            Change::Put(end_of(rows, leaf)),
        )
    } else {
        (Change::Put(0), Change::Put(0), Change::Put(0))
    }
}

// How many leaves rows take, four in a leaf.
fn leaves_taken(rows: &Rows) -> u32
    ensures { result ≡ leaves_for (length rows.now.items) }
{
    ((rows.len() as u64 + 3) / 4) as u32
}

// Where a leaf begins.
fn begin_of(rows: &Rows, leaf: u32) -> i64
    requires leaf { 4 * leaf + 4 < 2 ^ 32 }
    ensures { result ≡ begins rows.now.items leaf }
{
    if leaf == 0 {
        i64::MIN
    } else if 4 * leaf < rows.len() {
        rows.get(4 * leaf).0
    } else {
        0
    }
}

// Where it ends.
fn end_of(rows: &Rows, leaf: u32) -> i64
    requires leaf { 4 * leaf + 8 < 2 ^ 32 }
    requires used { leaf < leaves_for (length rows.now.items) }
    requires ends { FitsSigned w64 (ends rows.now.items leaf) }
    ensures { result ≡ ends rows.now.items leaf }
{
    if leaf + 1 < leaves_taken(rows) {
        begin_of(rows, leaf + 1) - 1
    } else {
        i64::MAX
    }
}
