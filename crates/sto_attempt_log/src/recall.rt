//! What is known of a part without an event, with the pending updates applied.
ghost use Rattle.std.specs.Prelude.{◌≡◌, ◌<◌, ◌≤◌, ◌^◌, ◌++◌, [], ◌∷◌, ℕ, ℤ, List, None, Some, false, true, length, map, pos, replicate, IfOk, OnOk, IfSome, IfNone, MatchOption};
ghost use Rattle.std.specs.Option.{option_map};
ghost use Rattle.std.specs.List.{Contains};
ghost use Rattle.sto_part.specs.Changes.{applied, applied_all};
ghost use Rattle.sto_item.specs.Pending.{changes_of, with_updates, AreUpdates};
ghost use Rattle.sto_item.specs.Agreement.{HasWidths};
ghost use Rattle.sto_item.specs.Rebase.{overwrites, rebased, rebased_one};
ghost use Rattle.sto_type.specs.Known.{known, learnt};
ghost use Rattle.sto_type.specs.Plans.{IsPlan};
ghost use Rattle.sto_type.specs.Saying.{said_plan};
ghost use Rattle.sto_attempt_log.specs.ReadSet.{words_in};
ghost use Rattle.sto_attempt_log.specs.Log.{ArePending, IsCache, Knows, IsUnknown};
ghost use Rattle.sto_attempt_log.specs.Refreshed.{outside, Learns, LearnsAnew, LearnsUpdated};
ghost use Rattle.sto_item.specs.Recorded.{AddsItems};

use crate::observed::Observed;
use crate::read_entry::ReadSet;
use std::alloc::Global;
use sto_item::{Item, Items, Updates};
use sto_model::Call;
use sto_part::{Change, NoMemory, PartWords};
use sto_type::{Cache, Said, TxType};

// Puts these words into a list, in place of what stands there.
fn fill(words: &[i64], scratch: &mut PartWords) -> Result<(), NoMemory>
    requires { length words.now < 2 ^ 32 }
    ensures { OnOk result (scratch.new.items ≡ words.now) }
{
    scratch.clear();
    scratch.extend(words)
}

// Puts so many zeros into a list, in place of what stands there.
fn fill_zeros(width: u32, scratch: &mut PartWords) -> Result<(), NoMemory>
    ensures { OnOk result (scratch.new.items ≡ replicate width (pos 0)) }
{
    scratch.clear();
    scratch.reserve(width)?;
    for _ in 0..width {
        scratch.push_spare(0);
    }
    Ok(())
}

// Applies changes to words, each to the one in its place.
fn install_all<T: TxType>(ty: &T, changes: &[Change], words: &mut PartWords)
    requires few { length changes.now < 2 ^ 32 }
    requires fits { length changes.now ≤ length words.old.items }
    ensures { words.new.items ≡ applied_all changes.now words.old.items }
{
    for place in 0..changes.len() {
        let word = place as u32;
        let now = ty.install(changes[place], *words.get(word));
        words.set(word, now);
    }
}

// Makes a part of one word known with a change applied. It takes no list for the word.
fn learn_word<T: TxType>(
    ty: &T,
    change: Change,
    part: u32,
    word: i64,
    cache: &mut Cache,
) -> Result<(), NoMemory>
    ensures { OnOk result (known cache.new ≡ learnt (known cache.old) part (applied change word ∷ [])) }
{
    let now = ty.install(change, word);
    cache.learn(part, &[now])
}

/// Makes a part known: these words, with the pending update of the part applied.
///
/// Where there is one, the words of a wide part are put together in `scratch`.
pub fn learn_updated<T: TxType>(
    ty: &T,
    set: &Observed,
    part: u32,
    words: &[i64],
    scratch: &mut PartWords,
    cache: &mut Cache,
) -> Result<(), NoMemory>
    requires few { length words.now < 2 ^ 32 }
    requires fits { length (changes_of set.now.updates part) ≤ length words.now }
    ensures { OnOk result (LearnsUpdated set.now part words.now cache.old cache.new) }
{
    let changes = set.changes(part);
    if changes.is_empty() {
        return cache.learn(part, words);
    }
    if words.len() == 1 {
        return learn_word(ty, changes[0], part, words[0], cache);
    }
    fill(words, scratch)?;
    install_all(ty, changes, scratch);
    cache.learn(part, scratch.as_slice())
}

// Makes a part known that the pending updates put whole. They are applied to zeros, of which none is left.
fn learn_put<T: TxType>(
    ty: &T,
    set: &Observed,
    part: u32,
    width: u32,
    scratch: &mut PartWords,
    cache: &mut Cache,
) -> Result<(), NoMemory>
    requires { length (changes_of set.now.updates part) ≤ width }
    ensures { OnOk result (LearnsUpdated set.now part (replicate width (pos 0)) cache.old cache.new) }
{
    fill_zeros(width, scratch)?;
    install_all(ty, set.changes(part), scratch);
    cache.learn(part, scratch.as_slice())
}

// Makes a part known that was read, or that the pending updates put whole. It answers false where it is neither.
fn recall<T: TxType>(
    ty: &T,
    base: &ReadSet,
    set: &Observed,
    part: u32,
    scratch: &mut PartWords,
    cache: &mut Cache,
) -> Result<bool, NoMemory>
    requires range { part < length (T.meaning ty.now).widths }
    requires pending { ArePending (T.meaning ty.now) base.now set.now }
    ensures known { IfOk result (λ is. is ≡ true → Learns (T.meaning ty.now) base.now set.now part cache.old cache.new) }
    ensures other { IfOk result (λ is. is ≡ false → (cache.new ≡ cache.old) × IsUnknown base.now set.now part) }
{
    if let Some(read_entry) = base.find(part) {
        learn_updated(ty, set, part, read_entry.words, scratch, cache)?;
        return Ok(true);
    }
    if set.overwrites(part) {
        learn_put(ty, set, part, ty.width(part), scratch, cache)?;
        return Ok(true);
    }
    Ok(false)
}

/// Has the type say a call, where no part that is known without an event is left to be needed. It answers the part that is needed; or
/// none, and then the buffer has all that the call says.
#[inline(always)]
pub(crate) fn ask<T: TxType>(
    alloc: Global,
    ty: &T,
    call: &Call,
    base: &ReadSet,
    set: &Observed,
    scratch: &mut PartWords,
    cache: &mut Cache,
    said: &mut Said,
) -> Result<Option<u32>, NoMemory>
    requires takes { (T.meaning ty.now).takes call.now }
    requires pending { ArePending (T.meaning ty.now) base.now set.now }
    requires cache { Knows (T.meaning ty.now) base.now set.now cache.old }
    ensures plan { IfOk result (λ need. IsPlan (T.meaning ty.now) call.now (known cache.new) (said_plan need said.new)) }
    ensures cache { OnOk result (Knows (T.meaning ty.now) base.now set.now cache.new) }
    ensures need { IfOk result (λ need. IfSome need (IsUnknown base.now set.now)) }
{
    let _parts = ty.parts();
    loop {
        match ty.say(alloc, call, 0, &cache.all(), said)? {
            Some(part) => {
                if !recall(ty, base, set, part, scratch, cache)? {
                    return Ok(Some(part));
                }
            }
            None => return Ok(None),
        }
    }
}

// Recalls a part anew; where it is neither read nor put whole, all becomes unknown.
fn learn_anew<T: TxType>(
    ty: &T,
    base: &ReadSet,
    set: &Observed,
    part: u32,
    scratch: &mut PartWords,
    cache: &mut Cache,
) -> Result<(), NoMemory>
    requires range { part < length (T.meaning ty.now).widths }
    requires pending { ArePending (T.meaning ty.now) base.now set.now }
    ensures { OnOk result (LearnsAnew (T.meaning ty.now) base.now set.now part cache.old cache.new) }
{
    if recall(ty, base, set, part, scratch, cache)? {
        return Ok(());
    }
    cache.forget();
    Ok(())
}

/// Brings what is known up to date after the updates of a call: the parts that they name are recalled anew, all others stay.
pub(crate) fn refresh<T: TxType>(
    ty: &T,
    base: &ReadSet,
    set: &Observed,
    updates: &Updates,
    scratch: &mut PartWords,
    cache: &mut Cache,
) -> Result<(), NoMemory>
    requires widths { (d : List (List ℤ)) × (T.meaning ty.now).valid d × HasWidths updates.now.items d }
    requires pending { ArePending (T.meaning ty.now) base.now set.now }
    requires off { IsCache (T.meaning ty.now) (words_in base.now.items) set.now.updates (outside updates.now.items (known cache.old)) }
    ensures { OnOk result (Knows (T.meaning ty.now) base.now set.now cache.new) }
{
    for entry in updates.as_slice() {
        learn_anew(ty, base, set, entry.0, scratch, cache)?;
    }
    Ok(())
}

/// Adds what is left of items below the pending updates, where it is not there.
pub(crate) fn add_items(set: &mut Observed, items: &Items) -> Result<(), NoMemory>
    ensures { OnOk result (AddsItems set.old (rebased set.old.updates items.now.items) set.new) }
{
    for place in 0..items.len() {
        add_left(set, items.get(place))?;
    }
    Ok(())
}

// Adds what is left of an item below the pending updates, if it is not there.
fn add_left(set: &mut Observed, item: &Item) -> Result<(), NoMemory>
    ensures { OnOk result (AddsItems set.old (rebased_one set.old.updates item.now) set.new) }
{
    match set.left_of(item) {
        Some(left) => set.add_item(left),
        None => Ok(()),
    }
}

/// Composes updates after the pending ones.
pub(crate) fn add_updates(set: &mut Observed, updates: &Updates) -> Result<(), NoMemory>
    requires ordered { AreUpdates set.old.updates }
    requires widths { (d : List (List ℤ)) × HasWidths set.old.updates d × HasWidths updates.now.items d }
    ensures ok { OnOk result (set.new ≡ record set.old { updates = with_updates set.old.updates updates.now.items }) }
    ensures ordered { AreUpdates updates.now.items }
{
    for entry in updates.as_slice() {
        set.add_update(entry.0, &entry.1)?;
    }
    Ok(())
}
