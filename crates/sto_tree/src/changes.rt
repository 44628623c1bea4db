//! Changes of parts.
ghost use Rattle.std.specs.Prelude.{◌≡◌, ◌+◌, ◌*◌, ◌^◌, ◌<◌, [], ◌∷◌, ◌++◌, length, IfOk, OnOk};
ghost use Rattle.sto_tree.specs.Said.{key_changes, at_place as only_at, new_row as the_new_row};
ghost use Rattle.sto_item.specs.Pending.{AreUpdates};
ghost use Rattle.sto_tree.specs.Layout.{value_part as the_value_part};
ghost use Rattle.sto_tree.specs.Repack.{filled, rows_of_leaf, row_values};

use crate::said::{key_part, value_part};
use sto_item::Updates;
use sto_model::Rows;
use sto_part::{Change, NoMemory, Update};
use sto_type::AnswerPool;

/// The changes of a key part of which one place changes: its present word, and its key.
#[tactic(auto, using(crate::specs::Sized::in_pairs_more))]
pub(crate) fn place_changes(
    pool: &mut AnswerPool,
    place: u32,
    present: Change,
    key: Change,
) -> Result<Update, NoMemory>
    ensures { IfOk result (λ l. l.items ≡ key_changes (only_at place present key)) }
{
    let mut update = pool.update();
    for other in 0..8 {
        push_pair(&mut update, pair_at(other, place, present, key))?;
    }
    Ok(update)
}

// The changes of one place where only a certain place changes.
fn pair_at(other: u32, place: u32, present: Change, key: Change) -> (Change, Change)
    ensures { result ≡ only_at place present key other }
{
    if other == place {
        (present, key)
    } else {
        (Change::Keep, Change::Keep)
    }
}

/// Adds two changes last.
pub(crate) fn push_pair(update: &mut Update, pair: (Change, Change)) -> Result<(), NoMemory>
    requires { length update.old.items + 2 < 2 ^ 32 }
    ensures { OnOk result (update.new.items ≡ update.old.items ++ (pair.0 ∷ pair.1 ∷ [])) }
{
    update.push(pair.0)?;
    update.push(pair.1)?;
    Ok(())
}

/// Adds three changes last.
pub(crate) fn push_three(
    update: &mut Update,
    three: (Change, Change, Change),
) -> Result<(), NoMemory>
    requires { length update.old.items + 3 < 2 ^ 32 }
    ensures { OnOk result (update.new.items ≡ update.old.items ++ (three.0 ∷ three.1 ∷ three.2 ∷ [])) }
{
    update.push(three.0)?;
    update.push(three.1)?;
    update.push(three.2)?;
    Ok(())
}

/// The one change of a part of one word.
pub(crate) fn word_change(pool: &mut AnswerPool, change: Change) -> Result<Update, NoMemory>
    ensures { IfOk result (λ l. l.items ≡ change ∷ []) }
{
    let mut update = pool.update();
    update.push(change)?;
    Ok(update)
}

/// The changes of a key part that takes the rows of a leaf, which are at most four, from its first place on.
pub(crate) fn filled_changes(
    pool: &mut AnswerPool,
    rows: &Rows,
    leaf: u32,
) -> Result<Update, NoMemory>
    requires { 4 * leaf + 8 < 2 ^ 32 }
    ensures { IfOk result (λ l. l.items ≡ key_changes (filled (rows_of_leaf rows.now.items leaf))) }
{
    let mut update = pool.update();
    for place in 0..8 {
        push_pair(&mut update, filled_pair(rows, leaf, place))?;
    }
    Ok(update)
}

// The changes of one place of it.
fn filled_pair(rows: &Rows, leaf: u32, place: u32) -> (Change, Change)
    requires leaf { 4 * leaf + 8 < 2 ^ 32 }
    requires place { place < 8 }
    ensures { result ≡ filled (rows_of_leaf rows.now.items leaf) place }
{
    if place < 4 && 4 * leaf + place < rows.len() {
        (Change::Put(1), Change::Put(rows.get(4 * leaf + place).0))
    } else {
        (Change::Put(0), Change::Keep)
    }
}

/// Adds the update of a higher part last.
pub(crate) fn push_update(updates: &mut Updates, part: u32, update: Update) -> Result<(), NoMemory>
    requires { AreUpdates (updates.old.items ++ (part, update.items) ∷ []) }
    ensures { OnOk result (updates.new.items ≡ updates.old.items ++ (part, update.items) ∷ []) }
{
    if updates.len() == u32::MAX {
        return Err(NoMemory);
    }
    updates.push((part, update))?;
    Ok(())
}

/// Adds the values of the rows of a leaf last, from the first place of some leaf on.
pub(crate) fn push_values(
    pool: &mut AnswerPool,
    updates: &mut Updates,
    leaf: u32,
    rows: &Rows,
    chunk: u32,
) -> Result<(), NoMemory>
    requires part { the_value_part leaf 8 < 2 ^ 32 }
    requires chunk { 4 * chunk + 8 < 2 ^ 32 }
    requires ordered { AreUpdates (updates.old.items ++ row_values leaf 0 (rows_of_leaf rows.now.items chunk)) }
    ensures { OnOk result (updates.new.items ≡ updates.old.items ++ row_values leaf 0 (rows_of_leaf rows.now.items chunk)) }
{
    let first = 4 * chunk;
    for place in 0..4 {
        if first + place < rows.len() {
            let value = word_change(pool, Change::Put(rows.get(first + place).1))?;
            push_update(updates, value_part(leaf, place), value)?;
        }
    }
    Ok(())
}

/// The updates of a row that is put at a free place of a leaf.
pub(crate) fn new_row(
    pool: &mut AnswerPool,
    leaf: u32,
    place: u32,
    key: i64,
    value: i64,
) -> Result<Updates, NoMemory>
    requires part { the_value_part leaf place < 2 ^ 32 }
    requires place { place < 8 }
    ensures { IfOk result (λ l. l.items ≡ the_new_row leaf place key value) }
{
    let mut updates = pool.updates();
    updates.push((0, word_change(pool, Change::Add(1))?))?;
    let places = place_changes(pool, place, Change::Put(1), Change::Put(key))?;
    updates.push((key_part(leaf), places))?;
    updates.push((
        value_part(leaf, place),
        word_change(pool, Change::Put(value))?,
    ))?;
    Ok(updates)
}
