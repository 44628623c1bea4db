//! The plan of a put that splits a leaf.
ghost use Rattle.std.specs.Prelude.{◌≡◌, ◌<◌, ◌+◌, ◌*◌, ◌-◌, ◌≤◌, ◌^◌, ◌-ℤ◌, ℤ, pos, nat_eq, if◌then◌else◌, Some, List as Seq, [], ◌∷◌, length, slice_index_or, IfOk, OnOk};
ghost use Rattle.std.specs.Int.{w64};
ghost use Rattle.std.specs.Int.RustNames.{FitsSigned};
ghost use Rattle.sto_part.specs.declared.change.Change.TheVariants.{Put as PutWord, Keep as KeepWord};
ghost use Rattle.sto_item.specs.declared.item.Item.TheVariants.{Seen as SeenPart};
ghost use Rattle.sto_part.specs.declared.pred.Test.TheVariants.{Eq as Equal, Le as AtMost};
ghost use Rattle.sto_item.specs.Agreement.{HasWidths};
ghost use Rattle.sto_item.specs.Pending.{AreUpdates, with_updates};
ghost use Rattle.sto_type.specs.Known.{known, IsPartOf};
ghost use Rattle.sto_type.specs.Plans.{planned, IsPlan};
ghost use Rattle.sto_tree.specs.Layout.{parts_of, place_slot, high as the_high, key_part as the_key_part, value_part as the_value_part};
ghost use Rattle.sto_tree.specs.Slots.{gathered};
ghost use Rattle.sto_tree.specs.Search.{first_below};
ghost use Rattle.sto_tree.specs.Valid.{IsTree};
ghost use Rattle.sto_tree.specs.Said.{compared, key_changes, new_row as the_new_row};
ghost use Rattle.sto_tree.specs.Put.{free_leaf as the_free_leaf};
ghost use Rattle.sto_tree.specs.Repack.{rows_of_leaf};
ghost use Rattle.sto_tree.specs.Split.{in_threes, middle as the_middle, moves as moves_at, moved_values, split_ranges, split_place as the_split_place, move_updates as the_move_updates};
ghost use Rattle.sto_tree.specs.Meaning.{tree_meaning, TreeTakes};
ghost use Rattle.sto_tree.specs.Found.{IsAtLeaf, IsCrowded};
ghost use Rattle.sto_tree.specs.Walked.{moved_value};

use crate::changes::{
    filled_changes, place_changes, push_pair, push_three, push_update, push_values, word_change,
};
use crate::get::only_word;
use crate::leaf::Leaf;
use crate::listing::{key_at, key_rows};
use crate::said::{compares, items_of, key_part, value_part};
use crate::search::{high, is_present};
use crate::seen::{add_item, see_parts};
use std::alloc::Global;
use sto_item::{Item, Items, Updates};
use sto_model::{Call, Operation, Reply, Rows};
use sto_part::{Change, List, NoMemory, Test, Update};
use sto_type::{Answer, AnswerPool, KnownParts};

/// What a put needs next where its leaf has no free place and another leaf is not live, or what it comes to.
pub(crate) fn plan_split(
    alloc: Global,
    pool: &mut AnswerPool,
    leaves: u32,
    call: &Call,
    cache: &KnownParts<'_>,
    found: Leaf<'_>,
    free: u32,
) -> Result<Answer, NoMemory>
    requires few { parts_of leaves < 2 ^ 32 }
    requires takes { TreeTakes leaves call.now }
    requires put { call.now.operation ≡ Operation.Put }
    requires part { (d : Seq (Seq ℤ)) × IsTree leaves d × IsPartOf (known cache.now) d }
    requires at { IsAtLeaf leaves (known cache.now) call.now.a found.directory.now found.number found.keys.now }
    requires below { found.number < leaves }
    requires directory { length found.directory.now ≡ 3 * leaves }
    requires keys { length found.keys.now ≡ 16 }
    requires crowded { IsCrowded leaves (known cache.now) call.now.a found.keys.now }
    requires free { the_free_leaf leaves found.directory.now ≡ Some free }
    ensures { IfOk result (λ a. IsPlan (tree_meaning leaves) call.now (known cache.now) (planned a)) }
{
    let middle = middle_of(alloc, found.keys)?;
    let moved = moved_parts(alloc, found.keys, found.number, middle)?;
    let mut items = leaf_items(pool, found, free, call.a)?;
    if let Some(part) = see_parts(&mut items, cache, moved.as_slice())? {
        return Ok(Answer::Need(part));
    }
    add_item(&mut items, compares(0, 0, Test::Lt, (4 * leaves) as i64))?;
    let rows = moved_rows(alloc, leaves, cache, found, middle)?;
    let mut updates = move_updates(pool, leaves, found, free, middle, &rows)?;
    let (leaf, place) = place_after(found, free, middle, call.a);
    compose_row(pool, &mut updates, leaf, place, call.a, call.b)?;
    Ok(Answer::Done {
        reply: Reply::Done,
        items,
        updates,
    })
}

// The fifth key of a key part, in rising order.
fn middle_of(alloc: Global, keys: &[i64]) -> Result<i64, NoMemory>
    requires { length keys.now ≡ 16 }
    ensures { IfOk result (λ x. x ≡ the_middle keys.now) }
{
    let rows = key_rows(alloc, keys)?;
    if rows.len() > 4 {
        Ok(rows.get(4).0)
    } else {
        Ok(0)
    }
}

// Whether a place moves: its key is one of the upper four.
fn moves(keys: &[i64], middle: i64, place: u32) -> bool
    requires place { 2 * place + 1 < length keys.now }
    requires middle { middle ≡ the_middle keys.now }
    ensures { result ≡ moves_at keys.now place }
{
    is_present(keys, place) && middle <= key_at(keys, place)
}

// The value parts of the places that move, rising.
fn moved_parts(alloc: Global, keys: &[i64], leaf: u32, middle: i64) -> Result<List<u32>, NoMemory>
    requires keys { length keys.now ≡ 16 }
    requires middle { middle ≡ the_middle keys.now }
    requires part { the_value_part leaf 8 < 2 ^ 32 }
    ensures { IfOk result (λ l. l.items ≡ moved_values leaf keys.now 8) }
{
    let mut parts = List::new(alloc);
    for place in 0..8 {
        if moves(keys, middle, place) {
            parts.push(value_part(leaf, place))?;
        }
    }
    Ok(parts)
}

// What a split observes of the directory, and of the key part of its leaf.
fn leaf_items(
    pool: &mut AnswerPool,
    found: Leaf<'_>,
    free: u32,
    key: i64,
) -> Result<Items, NoMemory>
    requires part { the_key_part found.number < 2 ^ 32 }
    requires directory { 3 * found.number + 2 < length found.directory.now }
    requires other { 9 * free < 2 ^ 32 }
    requires above { 1 ≤ free }
    ensures { IfOk result (λ l. l.items ≡ compared 1 (3 * found.entry.number) Equal (pos 1)
        ∷ compared 1 (3 * found.entry.number + 1) AtMost key
        ∷ compared 1 (3 * found.entry.number + 2) Equal (the_high found.entry.directory.now found.entry.number)
        ∷ compared 1 (3 * (free - 1)) Equal (pos 1) ∷ compared 1 (3 * free) Equal (pos 0) ∷ SeenPart (the_key_part found.entry.number)
        ∷ []) }
{
    let leaf = found.number;
    let end = high(found.directory, leaf);
    let items = [
        compares(1, 3 * leaf, Test::Eq, 1),
        compares(1, 3 * leaf + 1, Test::Le, key),
        compares(1, 3 * leaf + 2, Test::Eq, end),
        compares(1, 3 * (free - 1), Test::Eq, 1),
        compares(1, 3 * free, Test::Eq, 0),
        Item::Seen(key_part(leaf)),
    ];
    items_of(pool, &items)
}

// The rows of the leaf; the values of places that stay count for nothing.
fn moved_rows(
    alloc: Global,
    leaves: u32,
    cache: &KnownParts<'_>,
    found: Leaf<'_>,
    middle: i64,
) -> Result<Rows, NoMemory>
    requires few { parts_of leaves < 2 ^ 32 }
    requires part { (d : Seq (Seq ℤ)) × IsTree leaves d × IsPartOf (known cache.now) d }
    requires below { found.number < leaves }
    requires keys { length found.keys.now ≡ 16 }
    requires middle { middle ≡ the_middle found.keys.now }
    ensures { IfOk result (λ r. r.items ≡ gathered (place_slot found.entry.keys.now
        (moved_value (known cache.now) found.entry.number found.entry.keys.now)) 8) }
{
    let mut rows = Rows::new(alloc);
    for place in 0..8 {
        if is_present(found.keys, place) {
            let value = value_moved(leaves, cache, found, middle, place);
            rows.put(key_at(found.keys, place), value)?;
        }
    }
    Ok(rows)
}

// The value of a place that moves and is known, else 0.
fn value_moved(leaves: u32, cache: &KnownParts<'_>, found: Leaf<'_>, middle: i64, place: u32) -> i64
    requires few { parts_of leaves < 2 ^ 32 }
    requires part { (d : Seq (Seq ℤ)) × IsTree leaves d × IsPartOf (known cache.now) d }
    requires below { found.number < leaves }
    requires keys { length found.keys.now ≡ 16 }
    requires middle { middle ≡ the_middle found.keys.now }
    requires place { place < 8 }
    ensures { result ≡ moved_value (known cache.now) found.entry.number found.entry.keys.now place }
{
    if !moves(found.keys, middle, place) {
        return 0;
    }
    match cache.get(value_part(found.number, place)) {
        Some(words) => only_word(words),
        None => 0,
    }
}

// The updates that move the upper four rows of a leaf to another one.
fn move_updates(
    pool: &mut AnswerPool,
    leaves: u32,
    found: Leaf<'_>,
    free: u32,
    middle: i64,
    rows: &Rows,
) -> Result<Updates, NoMemory>
    requires few { parts_of leaves < 2 ^ 32 }
    requires below { found.number < leaves }
    requires other { free < leaves }
    requires directory { length found.directory.now ≡ 3 * leaves }
    requires keys { length found.keys.now ≡ 16 }
    requires middle { middle ≡ the_middle found.keys.now }
    requires fits { FitsSigned w64 (the_middle found.keys.now -ℤ pos 1) }
    requires eight { length rows.now.items ≡ 8 }
    requires ordered { AreUpdates (the_move_updates leaves found.directory.now found.number found.keys.now free
        (rows_of_leaf rows.now.items 1)) }
    ensures { IfOk result (λ l. l.items ≡ the_move_updates leaves found.entry.directory.now found.entry.number found.entry.keys.now free
        (rows_of_leaf rows.now.items 1)) }
{
    let mut updates = pool.updates();
    let ranges = split_directory(pool, leaves, found, free, middle)?;
    push_update(&mut updates, 1, ranges)?;
    let lower = lower_changes(pool, found.keys, middle)?;
    push_update(&mut updates, key_part(found.number), lower)?;
    let upper = filled_changes(pool, rows, 1)?;
    push_update(&mut updates, key_part(free), upper)?;
    push_values(pool, &mut updates, free, rows, 1)?;
    Ok(updates)
}

// The changes of the directory.
fn split_directory(
    pool: &mut AnswerPool,
    leaves: u32,
    found: Leaf<'_>,
    free: u32,
    middle: i64,
) -> Result<Update, NoMemory>
    requires few { parts_of leaves < 2 ^ 32 }
    requires below { found.number < leaves }
    requires directory { length found.directory.now ≡ 3 * leaves }
    requires middle { middle ≡ the_middle found.keys.now }
    requires fits { FitsSigned w64 (the_middle found.keys.now -ℤ pos 1) }
    ensures { IfOk result (λ l. l.items ≡ in_threes (split_ranges leaves found.entry.directory.now found.entry.number found.entry.keys.now
        free) 0 leaves) }
{
    let end = high(found.directory, found.number);
    let below = middle - 1;
    let mut update = pool.update();
    for other in 0..leaves {
        push_three(
            &mut update,
            range_after(other, found.number, free, middle, below, end),
        )?;
    }
    Ok(update)
}

// The changes of one leaf's range: one leaf ends below the fifth key, where another begins.
fn range_after(
    other: u32,
    leaf: u32,
    free: u32,
    middle: i64,
    below: i64,
    end: i64,
) -> (Change, Change, Change)
    ensures { result ≡ (if nat_eq other leaf then (KeepWord, KeepWord, PutWord below) else if nat_eq other free then
        (PutWord (pos 1), PutWord middle, PutWord end) else (KeepWord, KeepWord, KeepWord)) }
{
    if other == leaf {
        (Change::Keep, Change::Keep, Change::Put(below))
    } else if other == free {
        (Change::Put(1), Change::Put(middle), Change::Put(end))
    } else {
        (Change::Keep, Change::Keep, Change::Keep)
    }
}

// The changes of a key part that loses the places that move.
fn lower_changes(pool: &mut AnswerPool, keys: &[i64], middle: i64) -> Result<Update, NoMemory>
    requires keys { length keys.now ≡ 16 }
    requires middle { middle ≡ the_middle keys.now }
    ensures { IfOk result (λ l. l.items ≡ key_changes (λ i. if moves_at keys.now i then (PutWord (pos 0), KeepWord) else
        (KeepWord, KeepWord))) }
{
    let mut update = pool.update();
    for place in 0..8 {
        push_pair(&mut update, lower_pair(moves(keys, middle, place)))?;
    }
    Ok(update)
}

// The changes of one place of it.
fn lower_pair(moves: bool) -> (Change, Change)
    ensures { result ≡ (if moves then (PutWord (pos 0), KeepWord) else (KeepWord, KeepWord)) }
{
    if moves {
        (Change::Put(0), Change::Keep)
    } else {
        (Change::Keep, Change::Keep)
    }
}

// Where a new key goes after the move.
fn place_after(found: Leaf<'_>, free: u32, middle: i64, key: i64) -> (u32, u32)
    requires keys { length found.keys.now ≡ 16 }
    requires middle { middle ≡ the_middle found.keys.now }
    ensures { result ≡ the_split_place key found.entry.number found.entry.keys.now free }
{
    if key < middle {
        (found.number, first_moved(found.keys, middle).unwrap_or(0))
    } else {
        (free, 4)
    }
}

// The lowest place that moves.
#[tactic(auto, using(crate::specs::Searches::first_further, crate::specs::Searches::first_stop))]
fn first_moved(keys: &[i64], middle: i64) -> Option<u32>
    requires keys { length keys.now ≡ 16 }
    requires middle { middle ≡ the_middle keys.now }
    ensures { result ≡ first_below (moves_at keys.now) 8 }
{
    for place in 0..8 {
        if moves(keys, middle, place) {
            return Some(place);
        }
    }
    None
}

// Composes a new row after updates.
fn compose_row(
    pool: &mut AnswerPool,
    updates: &mut Updates,
    leaf: u32,
    place: u32,
    key: i64,
    value: i64,
) -> Result<(), NoMemory>
    requires part { the_value_part leaf 8 < 2 ^ 32 }
    requires place { place < 8 }
    requires widths { (d : Seq (Seq ℤ)) × HasWidths updates.old.items d × HasWidths (the_new_row leaf place key value) d }
    ensures { OnOk result (updates.new.items ≡ with_updates updates.old.items (the_new_row leaf place key value)) }
{
    let size = word_change(pool, Change::Add(1))?;
    let keys = place_changes(pool, place, Change::Put(1), Change::Put(key))?;
    let word = word_change(pool, Change::Put(value))?;
    updates.compose(0, &size)?;
    updates.compose(key_part(leaf), &keys)?;
    updates.compose(value_part(leaf, place), &word)?;
    Ok(())
}
