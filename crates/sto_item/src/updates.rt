//! Pending updates, in rising part number.
ghost use Rattle.std.specs.Prelude.{◌≡◌, ℕ, ◌+◌, ◌-◌, ◌^◌, ◌<◌, ◌≤◌, [], ◌∷◌, ◌++◌, length, map, slice_get, slice_set, Some, IfOk, OnOk, OnErr, IsOk, IfErr, MatchOption, MatchResult};
ghost use Rattle.std.specs.List.{insert, list_all};
ghost use Rattle.sto_part.specs.Changes.{composed_all};
ghost use Rattle.sto_item.specs.Pending.{plain, renumbered, is_keep, is_put, changes_of, change_at, with_update, AreUpdates, IsRising, IsWidthOf};
ghost use Rattle.sto_item.specs.Places.{entry_at, IsPlaceOf, IsPlaceFor};
ghost use Rattle.sto_item.specs.Rebase.{overwrites};

use std::alloc::Global;
use std::marker::Model;
use sto_part::{Change, List, NoMemory, Update, then};

/// The updates of parts in rising part number, each with a change other than `Keep`.
#[derive(Drop)]
pub struct Updates {
    list: List<(u32, Update)>,
    // Lists of changes that were taken away. Their room alone is of use: to the updates that come.
    kept: List<Update>,
}

impl Model for Updates {
    ghost use Rattle.std.specs.Prelude.{map};
    ghost use Rattle.sto_part.specs.Listed.{Listed};
    ghost use Rattle.sto_item.specs.Pending.{Entry, plain, AreUpdates};

    ghost Value = { Listed Entry };

    ghost view = { λ u. record { items = map plain u.list.items; spare = u.list.spare } };

    ghost invariant = { λ u. AreUpdates (map plain u.list.items) };
}

impl Updates {
    /// A list with no update.
    pub fn new(alloc: Global) -> Updates
        ensures { result ≡ record { items = []; spare = 0 } }
    {
        Updates {
            list: List::new(alloc),
            kept: List::new(alloc),
        }
    }

    /// How many parts have an update.
    pub fn len(&self) -> u32
        ensures { result ≡ length self.now.items }
    {
        self.list.len()
    }

    /// The part number and the update at a place.
    pub fn get(&self, place: u32) -> &(u32, Update)
        requires { place < length self.now.items }
        ensures { slice_get self.now.items place ≡ Some (plain result.now) }
    {
        self.list.get(place)
    }

    /// The part numbers and updates as a slice.
    pub fn as_slice(&self) -> &[(u32, Update)]
        ensures items { map plain result.now ≡ self.now.items }
        ensures few { length result.now < 2 ^ 32 }
        ensures ordered { AreUpdates self.now.items }
    {
        self.list.as_slice()
    }

    /// Adds the update of a higher part last, or hands it back.
    pub fn push(&mut self, item: (u32, Update)) -> Result<(), ((u32, Update), NoMemory)>
        requires few { length self.old.items + 1 < 2 ^ 32 }
        requires ordered { AreUpdates (self.old.items ++ plain item ∷ []) }
        ensures ok { OnOk result (self.new.items ≡ self.old.items ++ plain item ∷ []) }
        ensures succeeds { 1 ≤ self.old.spare → IsOk result }
        ensures room { self.old.spare ≤ self.new.spare + 1 }
        ensures err { OnErr result (self.new ≡ self.old) }
        ensures back { IfErr result (λ e. e.0 ≡ item) }
    {
        self.list.push(item)
    }

    /// Takes the update of the highest part.
    pub fn pop(&mut self) -> Option<(u32, Update)>
        ensures { MatchOption result ((self.old.items ≡ []) × (self.new ≡ self.old))
            (λ item. (self.old.items ≡ self.new.items ++ plain item ∷ []) × (self.new.spare ≡ self.old.spare + 1)) }
    {
        self.list.pop()
    }

    /// Makes room for at least so many more updates.
    pub fn reserve(&mut self, more: u32) -> Result<(), NoMemory>
        ensures items { self.new.items ≡ self.old.items }
        ensures ok { OnOk result (more ≤ self.new.spare) }
        ensures succeeds { more ≤ self.old.spare → IsOk result }
        ensures room { self.old.spare ≤ self.new.spare }
        ensures err { OnErr result (self.new ≡ self.old) }
    {
        self.list.reserve(more)
    }

    /// Adds the update of a higher part last, where there is room.
    pub fn push_spare(&mut self, item: (u32, Update))
        requires few { length self.old.items + 1 < 2 ^ 32 }
        requires ordered { AreUpdates (self.old.items ++ plain item ∷ []) }
        requires room { 1 ≤ self.old.spare }
        ensures { self.new ≡ record { items = self.old.items ++ plain item ∷ []; spare = self.old.spare - 1 } }
    {
        self.list.push_spare(item);
    }

    /// The same updates in a list of its own.
    pub fn copied(&self) -> Result<Updates, NoMemory>
        ensures copy { IfOk result (λ l. l.items ≡ self.now.items) }
        ensures ordered { AreUpdates self.now.items }
    {
        self.copied_into(Updates::new(self.list.allocator()))
    }

    /// The same updates in the room of other ones, which are taken away.
    pub fn copied_into(&self, other: Updates) -> Result<Updates, NoMemory>
        ensures copy { IfOk result (λ l. l.items ≡ self.now.items) }
        ensures ordered { AreUpdates self.now.items }
    {
        let mut other = other;
        other.clear();
        let Updates { list, mut kept } = other;
        let list = copied_entries(list, &mut kept, self.list.as_slice())?;
        Ok(Updates { list, kept })
    }

    /// Takes all updates away. Their room stays.
    pub fn clear(&mut self)
        ensures { self.new.items ≡ [] }
    {
        keep_changes(&mut self.list, &mut self.kept);
        self.list.clear();
    }

    /// Takes all updates away, and adds the lists of their changes to others, where there is memory for that. The room of both stays.
    pub fn take_apart(&mut self, changes: &mut List<Update>)
        ensures { self.new.items ≡ [] }
    {
        keep_changes(&mut self.list, changes);
        self.list.clear();
    }

    /// Gives each update the part number that it has where so many parts stand before.
    pub fn renumber(&mut self, first: u32)
        requires { (place : ℕ) → place < length self.old.items → first + (entry_at self.old.items place).0 < 2 ^ 32 }
        ensures items { self.new.items ≡ map (renumbered first) self.old.items }
        ensures room { self.new.spare ≡ self.old.spare }
    {
        renumber_all(&mut self.list, first);
    }

    /// Composes an update after the pending one of its part, word by word. One that keeps every word adds nothing.
    #[inline(always)]
    pub fn compose(&mut self, part: u32, update: &Update) -> Result<(), NoMemory>
        requires { IsWidthOf self.old.items part update.now.items }
        ensures ok { OnOk result (self.new.items ≡ with_update self.old.items part update.now.items) }
        ensures err { OnErr result (self.new.items ≡ self.old.items) }
        ensures ordered { AreUpdates self.new.items }
        ensures was_ordered { AreUpdates self.old.items }
    {
        add(&mut self.list, &mut self.kept, part, update)
    }
}

// Adds copies of entries to a list with none.
fn copied_entries(
    empty: List<(u32, Update)>,
    kept: &mut List<Update>,
    entries: &[(u32, Update)],
) -> Result<List<(u32, Update)>, NoMemory>
    requires few { length entries.now < 2 ^ 32 }
    requires empty { empty.items ≡ [] }
    ensures { IfOk result (λ l. map plain l.items ≡ map plain entries.now) }
{
    let mut made = empty;
    for entry in entries {
        made.push((entry.0, copied_changes(kept, &entry.1)?))?;
    }
    Ok(made)
}

// The same changes in a list that was kept, or in one of its own where there is none.
#[inline(always)]
fn copied_changes(kept: &mut List<Update>, update: &Update) -> Result<Update, NoMemory>
    ensures { IfOk result (λ l. l.items ≡ update.now.items) }
{
    let Some(mut copy) = kept.pop() else {
        return update.copied();
    };
    copy.clear();
    copy.extend(update.as_slice())?;
    Ok(copy)
}

// Moves the changes of entries to the lists that are kept.
fn keep_changes(entries: &mut List<(u32, Update)>, kept: &mut List<Update>) {
    for _ in 0..entries.len() {
        if let Some((_, changes)) = entries.pop() {
            keep(kept, changes);
        }
    }
}

// Keeps one list more. Where there is no memory for that, it is dropped.
fn keep(kept: &mut List<Update>, changes: Update) {
    if kept.len() < u32::MAX {
        let _ = kept.push(changes);
    }
}

/// The pending change of a word, or `Keep`.
pub(crate) fn change_of(entries: &[(u32, Update)], part: u32, word: u32) -> Change
    requires few { length entries.now < 2 ^ 32 }
    requires rising { IsRising (map plain entries.now) }
    ensures { result ≡ change_at (map plain entries.now) part word }
{
    let changes = changes_of(entries, part);
    let word = word as usize;
    if word < changes.len() {
        changes[word]
    } else {
        Change::Keep
    }
}

/// Whether a part has a pending update that puts a value at every word.
pub(crate) fn overwrites(entries: &[(u32, Update)], part: u32) -> bool
    requires few { length entries.now < 2 ^ 32 }
    requires rising { IsRising (map plain entries.now) }
    ensures { result ≡ overwrites (changes_of (map plain entries.now) part) }
{
    is_full(changes_of(entries, part))
}

/// The pending changes of a part; none where it has no update.
pub(crate) fn changes_of(entries: &[(u32, Update)], part: u32) -> &[Change]
    requires few { length entries.now < 2 ^ 32 }
    requires rising { IsRising (map plain entries.now) }
    ensures { result.now ≡ changes_of (map plain entries.now) part }
{
    match place_of(entries, part) {
        Ok(place) => entries[place as usize].1.as_slice(),
        Err(_) => &[],
    }
}

// Whether each is a `Put`, and there is one.
fn is_full(changes: &[Change]) -> bool
    ensures { result ≡ overwrites changes.now }
{
    changes.len() > 0 && all_put(changes)
}

fn all_put(changes: &[Change]) -> bool
    ensures { result ≡ list_all is_put changes.now }
{
    changes.iter().all(|change| is_put(change))
}

fn is_put(change: &Change) -> bool
    ensures { result ≡ is_put change.now }
{
    matches!(change, Change::Put(_))
}

fn all_keep(changes: &[Change]) -> bool
    ensures { result ≡ list_all is_keep changes.now }
{
    changes.iter().all(|change| is_keep(change))
}

fn is_keep(change: &Change) -> bool
    ensures { result ≡ is_keep change.now }
{
    matches!(change, Change::Keep)
}

// Adds an update to the pending ones.
fn add(
    entries: &mut List<(u32, Update)>,
    kept: &mut List<Update>,
    part: u32,
    update: &Update,
) -> Result<(), NoMemory>
    requires rising { IsRising (map plain entries.old.items) }
    requires width { IsWidthOf (map plain entries.old.items) part update.now.items }
    ensures ok { OnOk result (map plain entries.new.items ≡ with_update (map plain entries.old.items) part update.now.items) }
    ensures err { OnErr result (entries.new.items ≡ entries.old.items) }
{
    if all_keep(update.as_slice()) {
        return Ok(());
    }
    match place_of(entries.as_slice(), part) {
        Ok(place) => {
            put_over(entries, place, update);
            Ok(())
        }
        Err(place) => put_new(entries, kept, place, part, update),
    }
}

// Where the entry of a part stands, or where it belongs.
fn place_of(entries: &[(u32, Update)], part: u32) -> Result<u32, u32>
    requires few { length entries.now < 2 ^ 32 }
    requires rising { IsRising (map plain entries.now) }
    ensures place { MatchResult result (IsPlaceOf (map plain entries.now) part) (IsPlaceFor (map plain entries.now) part) }
    ensures changes { MatchResult result (λ i. changes_of (map plain entries.now) part ≡ (entry_at (map plain entries.now) i).1)
        (λ i. changes_of (map plain entries.now) part ≡ []) }
{
    let place = entries.partition_point(|entry| entry.0 < part);
    if place < entries.len() && entries[place].0 == part {
        Ok(place as u32)
    } else {
        Err(place as u32)
    }
}

// Composes an update after the one that stands at a place.
#[inline(always)]
fn put_over(entries: &mut List<(u32, Update)>, place: u32, update: &Update)
    requires place { place < length entries.old.items }
    requires width { length (entry_at (map plain entries.old.items) place).1 ≡ length update.now.items }
    ensures { map plain entries.new.items ≡ slice_set (map plain entries.old.items) place
        ((entry_at (map plain entries.old.items) place).0, composed_all (entry_at (map plain entries.old.items) place).1 update.now.items) }
{
    let entry = entries.get_mut(place);
    compose(&mut entry.1, update);
}

// Adds to the part number of each.
fn renumber_all(entries: &mut List<(u32, Update)>, first: u32)
    requires { (place : ℕ) → place < length entries.old.items → first + (entry_at (map plain entries.old.items) place).0 < 2 ^ 32 }
    ensures items { map plain entries.new.items ≡ map (renumbered first) (map plain entries.old.items) }
    ensures room { entries.new.spare ≡ entries.old.spare }
{
    for place in 0..entries.len() {
        renumber_one(entries, place, first);
    }
}

// Adds to the part number of the one at a place.
fn renumber_one(entries: &mut List<(u32, Update)>, place: u32, first: u32)
    requires place { place < length entries.old.items }
    requires few { first + (entry_at (map plain entries.old.items) place).0 < 2 ^ 32 }
    ensures items { map plain entries.new.items ≡ slice_set (map plain entries.old.items) place
        (renumbered first (entry_at (map plain entries.old.items) place)) }
    ensures room { entries.new.spare ≡ entries.old.spare }
{
    let entry = entries.get_mut(place);
    entry.0 += first;
}

// Puts an update of its own at a place.
#[inline(always)]
fn put_new(
    entries: &mut List<(u32, Update)>,
    kept: &mut List<Update>,
    place: u32,
    part: u32,
    update: &Update,
) -> Result<(), NoMemory>
    requires { place ≤ length entries.old.items }
    ensures ok { OnOk result (map plain entries.new.items ≡ insert (map plain entries.old.items) place (part, update.now.items)) }
    ensures err { OnErr result (entries.new.items ≡ entries.old.items) }
{
    if entries.len() == u32::MAX {
        return Err(NoMemory);
    }
    entries.reserve(1)?;
    let copy = copied_changes(kept, update)?;
    entries.insert_spare(place, (part, copy));
    Ok(())
}

// Makes each change of the first what both do, one after the other.
#[inline(always)]
fn compose(first: &mut Update, second: &Update)
    requires { length first.old.items ≡ length second.now.items }
    ensures { first.new.items ≡ composed_all first.old.items second.now.items }
{
    for word in 0..second.len() {
        first.set_change(word, then(first.change(word), second.change(word)));
    }
}
