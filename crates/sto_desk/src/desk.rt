//! The desk.
ghost use Rattle.std.specs.Prelude.{◌≡◌, [], ◌∷◌, ◌++◌, ℕ, ℤ, ◌+◌, ◌-◌, ◌<◌, ◌≤◌, ◌^◌, length, false, nat_lt, take, drop, slice_set, slice_get, slice_index_or, pos, None, Some, OnOk, OnErr, IfOk, IfSome, map};
ghost use Rattle.std.specs.Option.{option_map};
ghost use Rattle.sto_part.specs.Changes.{applied_all};
ghost use Rattle.sto_part.specs.Listed.{with_item};
ghost use Rattle.sto_desk.specs.Entries.{place_in, of_part, cut, none};
ghost use Rattle.sto_desk.specs.Reads.{words_in, ticket_in};
ghost use Rattle.sto_desk.specs.Known.{known, learnt};
ghost use Rattle.sto_desk.specs.Laid.{Laid, Recalls, IsNoted};
ghost use Rattle.sto_desk.specs.Learning.{FitsPending, Learns, Loads, HasWidth};
ghost use Rattle.sto_desk.specs.Finding.{Finds, ticket_from};
ghost use Rattle.sto_desk.specs.Renewing.{overwritten, renewed};
ghost use Rattle.sto_desk.specs.Desk.{EndsBy};
ghost use Rattle.sto_item.specs.Pending.{is_keep, changes_of};
ghost use Rattle.sto_item.specs.Rebase.{overwrites};
ghost use Rattle.sto_item.specs.Observed.{sees};
ghost use Rattle.sto_desk.specs.Changing.{Writes};
ghost use Rattle.std.specs.List.{list_all};
ghost use Rattle.sto_desk.specs.Testing.{is_so_on};
ghost use Rattle.sto_desk.specs.Ordering.{Rises, ArePartsOf};
ghost use Rattle.sto_desk.specs.Observing.{Observes, IsInside};

use crate::changing::{cut_changes, is_whole, make_changes_room, open, write};
use crate::entries::{any_written, cut, entry_of, make_room, rest, touch};
use crate::holding::{are_so, left_of};
use crate::items::Items;
use crate::order::{Which, gather};
use crate::seen::ReadRef;
use crate::touched::{NONE, Touched};
use std::alloc::Global;
use std::marker::Model;
use sto_item::Item;
use sto_part::{Change, List, NoMemory, PartIndex, Parts, Pred, apply_word};

/// All that an attempt has read, observed and is to write.
#[derive(Drop)]
pub struct Desk {
    // One for each part, in the order in which the parts were touched.
    touched: List<Touched>,
    // The place of each.
    places: PartIndex,
    // Words as they were read and loaded.
    words: List<i64>,
    // So many of them are of parts. Those behind were taken down and are of no part yet.
    taken: u32,
    // Pending changes of the written parts.
    changes: List<Change>,
    // Beside each of them its word with the change applied.
    after: List<i64>,
    // The items.
    items: Items,
    // Beside each predicate the place of the one before it on its part.
    before: List<u32>,
}

impl Model for Desk {
    ghost use Rattle.sto_desk.specs.Laid.{Laid, laid, Sheets};
    ghost use Rattle.sto_desk.specs.Desk.{IsInOrder};
    ghost use Rattle.sto_desk.specs.Touching.{ArePlaced};

    ghost Value = { Laid };

    ghost view = { λ d. laid (record { touched = d.touched.items; words = d.words.items; taken = d.taken; changes = d.changes.items; after = d.after.items; items = d.items; before = d.before.items }) };

    ghost invariant = { λ d. ArePlaced d.places d.touched.items
        × IsInOrder (record { touched = d.touched.items; words = d.words.items; taken = d.taken; changes = d.changes.items; after = d.after.items; items = d.items; before = d.before.items }) };
}

impl Desk {
    /// A desk on which nothing lies. It takes no memory.
    pub fn new(alloc: Global) -> Desk
        ensures { result ≡ record { reads = []; fresh = []; set = record { items = []; updates = [] }; known = []; found = []; loaded = [] } }
    {
        Desk {
            touched: List::new(alloc),
            places: PartIndex::new(alloc),
            words: List::new(alloc),
            taken: 0,
            changes: List::new(alloc),
            after: List::new(alloc),
            items: Items::new(alloc),
            before: List::new(alloc),
        }
    }

    /// Takes all away. The room stays.
    pub fn clear(&mut self)
        ensures { self.new ≡ record { reads = []; fresh = []; set = record { items = []; updates = [] }; known = []; found = []; loaded = [] } }
    {
        self.touched.clear();
        self.places.clear();
        self.words.clear();
        self.taken = 0;
        self.changes.clear();
        self.after.clear();
        self.items.clear();
        self.before.clear();
    }

    /// The words that were taken down and are of no part yet.
    pub fn fresh(&self) -> &[i64]
        ensures { result.now ≡ self.now.fresh }
    {
        &self.words.as_slice()[self.taken as usize..]
    }

    /// Takes a word down.
    #[inline(always)]
    pub fn take_word(&mut self, word: i64) -> Result<(), NoMemory>
        ensures ok { OnOk result (self.new ≡ record self.old { fresh = self.old.fresh ++ word ∷ [] }) }
        ensures err { OnErr result (self.new ≡ self.old) }
    {
        if self.words.len() >= NONE - 1 {
            return Err(NoMemory);
        }
        self.words.reserve(1)?;
        self.words.push_spare(word);
        Ok(())
    }

    /// Drops the words that are of no part.
    pub fn drop_fresh(&mut self)
        ensures { self.new ≡ record self.old { fresh = [] } }
    {
        shorten(&mut self.words, self.taken);
    }

    /// A part was read, or read anew: with this ticket, and the words that were taken down.
    #[inline(always)]
    pub fn learn(&mut self, part: u32, ticket: u64) -> Result<(), NoMemory>
        requires unloaded { known self.old.loaded part ≡ None }
        requires fits { FitsPending self.old.set.updates part (length self.old.fresh) }
        ensures ok { OnOk result (Learns self.old self.new part ticket) }
        ensures err { OnErr result (self.new ≡ self.old) }
    {
        if part == NONE || self.touched.len() == NONE {
            return Err(NoMemory);
        }
        make_room(&mut self.places, &mut self.touched, part)?;
        let width = self.words.len() - self.taken;
        let place = touch(&mut self.places, &mut self.touched, part, width);
        let entry = *self.touched.get(place);
        let fresh = rest(self.words.as_slice(), self.taken);
        renew_entry(&self.changes, &mut self.after, &entry, fresh);
        let read = Touched {
            width,
            ticket,
            read: self.taken,
            ..entry
        };
        self.touched.set(place, read);
        self.taken = self.words.len();
        Ok(())
    }

    /// The part as it was read.
    #[inline(always)]
    pub fn read(&self, part: u32) -> Option<ReadRef<'_>>
        ensures words { words_in self.now.reads part ≡ option_map (λ r. r.words.now) result }
        ensures ticket { ticket_in self.now.reads part ≡ option_map (λ r. r.ticket) result }
    {
        match entry_of(&self.places, &self.touched, part) {
            Some(entry) => {
                if entry.read == NONE {
                    return None;
                }
                Some(ReadRef {
                    ticket: entry.ticket,
                    words: cut(self.words.as_slice(), entry.read, entry.width),
                })
            }
            None => None,
        }
    }

    /// The words of a part as a call sees them; none where the part is not known.
    #[inline(always)]
    pub fn known(&self, part: u32) -> Option<&[i64]>
        ensures { known self.now.known part ≡ option_map (λ w. w.now) result }
    {
        match entry_of(&self.places, &self.touched, part) {
            Some(entry) => {
                if entry.changed == NONE {
                    if entry.read == NONE {
                        return None;
                    }
                    return Some(cut(self.words.as_slice(), entry.read, entry.width));
                }
                if entry.read != NONE || entry.whole {
                    return Some(cut(self.after.as_slice(), entry.changed, entry.width));
                }
                None
            }
            None => None,
        }
    }

    /// That each part is known as it is recalled from what was read and what is pending.
    pub fn recalls(&self)
        ensures { Recalls self.now }
    {
        let _touched = &self.touched;
    }

    /// That nothing is known past the numbers of 32 bits.
    pub fn ends(&self)
        ensures { (part : ℕ) → 2 ^ 32 ≤ part → known self.now.known part ≡ None }
    {
        let _touched = &self.touched;
    }

    /// Notes the ticket with which a lock or a test has found a part.
    #[inline(always)]
    pub fn find(&mut self, part: u32, ticket: u64)
        requires { IsNoted self.old part }
        ensures { Finds self.old self.new part ticket }
    {
        match self.places.get(part) {
            Some(place) => {
                let entry = *self.touched.get(place);
                let found = Touched {
                    found: ticket,
                    ..entry
                };
                self.touched.set(place, found);
            }
            None => unreachable!(),
        }
    }

    /// The ticket with which the commit has found a part last, or 0.
    #[inline(always)]
    pub fn ticket(&self, part: u32) -> u64
        ensures { result ≡ ticket_from 0 self.now.found part }
    {
        match entry_of(&self.places, &self.touched, part) {
            Some(entry) => entry.found,
            None => 0,
        }
    }

    /// The commit has loaded a part: with the words that were taken down.
    #[inline(always)]
    pub fn load(&mut self, part: u32)
        requires noted { IsNoted self.old part }
        requires width { HasWidth self.old part (length self.old.fresh) }
        ensures { Loads self.old self.new part }
    {
        match self.places.get(part) {
            Some(place) => {
                let entry = *self.touched.get(place);
                let loaded = Touched {
                    loaded: self.taken,
                    ..entry
                };
                self.touched.set(place, loaded);
                self.taken = self.words.len();
            }
            None => unreachable!(),
        }
    }

    /// A change of a word comes after the pending one. It is not `Keep`.
    #[inline(always)]
    pub fn change(
        &mut self,
        part: u32,
        width: u32,
        word: u32,
        change: Change,
    ) -> Result<(), NoMemory>
        requires word { word < width }
        requires changing { is_keep change ≡ false }
        requires width { HasWidth self.old part width }
        requires unloaded { known self.old.loaded part ≡ None }
        ensures ok { OnOk result (Writes self.old self.new part width word change) }
        ensures err { OnErr result (self.new ≡ self.old) }
    {
        if part == NONE || self.touched.len() == NONE {
            return Err(NoMemory);
        }
        make_room(&mut self.places, &mut self.touched, part)?;
        make_changes_room(&mut self.changes, &mut self.after, width)?;
        let place = touch(&mut self.places, &mut self.touched, part, width);
        let entry = *self.touched.get(place);
        let start = open(
            &mut self.changes,
            &mut self.after,
            self.words.as_slice(),
            &entry,
            width,
        );
        write(&mut self.changes, &mut self.after, start + word, change);
        let whole = is_whole(cut_changes(self.changes.as_slice(), start, width));
        let written = Touched {
            changed: start,
            width,
            whole,
            ..entry
        };
        self.touched.set(place, written);
        Ok(())
    }

    /// A part that is known is observed whole, over what is pending.
    #[inline(always)]
    pub fn see(&mut self, part: u32) -> Result<(), NoMemory>
        requires { known self.old.known part ≡ None → ⊥ }
        ensures ok { OnOk result (Observes self.old self.new (Item.Seen part)) }
        ensures err { OnErr result (self.new ≡ self.old) }
    {
        match self.places.get(part) {
            Some(place) => {
                let entry = *self.touched.get(place);
                if entry.whole {
                    return Ok(());
                }
                if entry.seen {
                    return Ok(());
                }
                if self.items.len() >= NONE - 1 {
                    return Err(NoMemory);
                }
                self.before.reserve(1)?;
                self.items.push_sight(part)?;
                self.before.push_spare(NONE);
                let seen = Touched {
                    seen: true,
                    ..entry
                };
                self.touched.set(place, seen);
                Ok(())
            }
            None => unreachable!(),
        }
    }

    /// A predicate on a part that is known is observed, over what is pending.
    #[inline(always)]
    pub fn hold(&mut self, pred: &Pred) -> Result<(), NoMemory>
        requires known { known self.old.known pred.now.part ≡ None → ⊥ }
        requires inside { IsInside self.old pred.now }
        ensures ok { OnOk result (Observes self.old self.new (Item.Holds pred.now)) }
        ensures err { OnErr result (self.new ≡ self.old) }
    {
        match self.places.get(pred.part) {
            Some(place) => {
                let entry = *self.touched.get(place);
                match left_of(&self.changes, &entry, pred) {
                    Some(left) => {
                        if self.items.has(&left) {
                            return Ok(());
                        }
                        if self.items.len() >= NONE - 1 {
                            return Err(NoMemory);
                        }
                        self.before.reserve(1)?;
                        let last = self.items.len();
                        self.items.push_pred(left)?;
                        self.before.push_spare(entry.last);
                        let held = Touched { last, ..entry };
                        self.touched.set(place, held);
                        Ok(())
                    }
                    None => Ok(()),
                }
            }
            None => unreachable!(),
        }
    }

    /// The items, in the order in which they came.
    pub fn items(&self) -> &[Item]
        ensures items { result.now ≡ self.now.set.items }
        ensures few { length result.now < 2 ^ 32 }
    {
        self.items.as_slice()
    }

    /// The pending changes of a part, word by word; none where it has no update.
    #[inline(always)]
    pub fn changes(&self, part: u32) -> &[Change]
        ensures { result.now ≡ changes_of self.now.set.updates part }
    {
        match entry_of(&self.places, &self.touched, part) {
            Some(entry) => {
                if entry.changed == NONE {
                    return &[];
                }
                cut_changes(self.changes.as_slice(), entry.changed, entry.width)
            }
            None => &[],
        }
    }

    /// Whether any part has a pending update.
    pub fn has_updates(&self) -> bool
        ensures { result ≡ nat_lt 0 (length self.now.set.updates) }
    {
        any_written(self.touched.as_slice())
    }

    /// Whether the part has a pending update that puts a value at every word.
    #[inline(always)]
    pub fn overwrites(&self, part: u32) -> bool
        ensures { result ≡ overwrites (changes_of self.now.set.updates part) }
    {
        match entry_of(&self.places, &self.touched, part) {
            Some(entry) => entry.whole,
            None => false,
        }
    }

    /// Whether a part was observed whole.
    #[inline(always)]
    pub fn sees(&self, part: u32) -> bool
        ensures { result ≡ sees part self.now.set.items }
    {
        match entry_of(&self.places, &self.touched, part) {
            Some(entry) => entry.seen,
            None => false,
        }
    }

    /// Whether the predicates on a part are true of these words.
    #[inline(always)]
    pub fn all_hold(&self, part: u32, words: &[i64]) -> bool
        ensures { result ≡ list_all (is_so_on part words.now) self.now.set.items }
    {
        match entry_of(&self.places, &self.touched, part) {
            Some(entry) => are_so(
                self.items.as_slice(),
                self.before.as_slice(),
                entry.last,
                part,
                words,
            ),
            None => true,
        }
    }

    /// The parts with a pending update, each once, in rising order.
    pub fn order(&self, empty: Parts) -> Result<Parts, NoMemory>
        requires { empty.items ≡ [] }
        ensures parts { IfOk result (λ l. l.items ≡ map (λ e. e.0) self.now.set.updates) }
        ensures rises { IfOk result (λ l. Rises l.items) }
    {
        gather(
            Which::Written,
            &self.touched,
            self.changes.as_slice(),
            empty,
        )
    }

    /// The parts that are meant, each once, in rising order.
    pub fn parts(&self, which: Which, empty: Parts) -> Result<Parts, NoMemory>
        requires { empty.items ≡ [] }
        ensures { IfOk result (λ l. ArePartsOf self.now which l.items) }
    {
        gather(which, &self.touched, self.changes.as_slice(), empty)
    }

    /// The words of a part as the commit has loaded them.
    #[inline(always)]
    pub fn loaded(&self, part: u32) -> Option<&[i64]>
        ensures { known self.now.loaded part ≡ option_map (λ w. w.now) result }
    {
        match entry_of(&self.places, &self.touched, part) {
            Some(entry) => {
                if entry.loaded == NONE {
                    return None;
                }
                Some(cut(self.words.as_slice(), entry.loaded, entry.width))
            }
            None => None,
        }
    }
}

// Takes the last words away, down to so many.
fn shorten(words: &mut List<i64>, to: u32)
    requires { to ≤ length words.old.items }
    ensures { words.new.items ≡ take to words.old.items }
{
    for _ in to..words.len() {
        words.pop();
    }
}

// Makes the words beside the changes of an entry these with the changes applied, if it has changes.
#[inline(always)]
fn renew_entry(changes: &List<Change>, after: &mut List<i64>, entry: &Touched, words: &[i64])
    requires few { length words.now < 2 ^ 32 }
    requires small { length changes.now.items < 2 ^ 32 }
    requires fits { EndsBy entry.now.changed (length words.now) (length changes.now.items) }
    requires beside { length after.old.items ≡ length changes.now.items }
    ensures { after.new.items ≡ renewed changes.now.items after.old.items entry.now words.now }
{
    if entry.changed != NONE {
        renew(changes, after, entry.changed, words);
    }
}

// Makes the words beside changes these with the changes applied.
fn renew(changes: &List<Change>, after: &mut List<i64>, start: u32, words: &[i64])
    requires few { length words.now < 2 ^ 32 }
    requires small { length changes.now.items < 2 ^ 32 }
    requires changes { start + length words.now ≤ length changes.now.items }
    requires after { start + length words.now ≤ length after.old.items }
    ensures { after.new.items ≡ overwritten after.old.items start (applied_all (cut changes.now.items start (length words.now)) words.now) }
{
    for place in 0..words.len() as u32 {
        let change = *changes.get(start + place);
        after.set(start + place, apply_word(change, words[place as usize]));
    }
}
