//! What an attempt notes: items and pending updates.
ghost use Rattle.std.specs.Prelude.{◌≡◌, ◌^◌, ◌<◌, [], length, map, nat_lt, IfOk, IfSome, OnOk};
ghost use Rattle.std.specs.List.{list_all};
ghost use Rattle.std.specs.Option.{option_to_list};
ghost use Rattle.sto_item.specs.Pending.{changes_of, change_at, with_update, AreUpdates, IsWidthOf};
ghost use Rattle.sto_item.specs.Observed.{IsObserved};
ghost use Rattle.sto_item.specs.Rebase.{overwrites, moved, rebased_one};
ghost use Rattle.sto_item.specs.Recorded.{AddsItem};
ghost use Rattle.sto_item.specs.Watched.{watched};
ghost use Rattle.sto_attempt_log.specs.CommitPhases.{is_so};
ghost use Rattle.sto_attempt_log.specs.Predicates.{ArePredsOf};

use crate::loaded_words::LoadedWords;
use crate::predicates::Predicates;
use std::alloc::Global;
use std::marker::Model;
use std::mem;
use sto_item::{Item, ItemSet, Updates, Watches};
use sto_part::{Change, NoMemory, Pred, Update, apply_word};
use sto_type::TxType;

// Up to so many items are gone through for each part, which takes no memory.
const FEW: usize = 16;

/// The items and the pending updates of an attempt.
///
/// A commit of more than a few items gives it the predicates among them part by part. Then those on a part are found in logarithmic
/// time.
#[derive(Drop)]
pub struct Observed {
    set: ItemSet,
    predicates: Option<Predicates>,
}

impl Model for Observed {
    ghost use Rattle.std.specs.Prelude.{IfSome};
    ghost use Rattle.sto_item.specs.Recorded.{Recorded};
    ghost use Rattle.sto_attempt_log.specs.Predicates.{ArePredsOf};

    ghost Value = { Recorded };

    ghost view = { λ n. n.set };

    ghost invariant = { λ n. IfSome n.predicates (λ ps. ArePredsOf n.set.items ps) };
}

impl Observed {
    /// No item and no update.
    pub fn new(alloc: Global) -> Observed
        ensures { result ≡ record { items = []; updates = [] } }
    {
        Observed {
            set: ItemSet::new(alloc),
            predicates: None,
        }
    }

    /// Adds an item last, unless an equal one is there.
    pub(crate) fn add_item(&mut self, item: Item) -> Result<(), NoMemory>
        ensures ok { OnOk result (AddsItem self.old item self.new) }
    {
        self.predicates = None;
        self.set.add_item(item)
    }

    /// Composes an update of a part after the pending one.
    pub(crate) fn add_update(&mut self, part: u32, update: &Update) -> Result<(), NoMemory>
        requires { IsWidthOf self.old.updates part update.now.items }
        ensures ok { OnOk result (self.new ≡ record self.old { updates = with_update self.old.updates part update.now.items }) }
        ensures ordered { AreUpdates self.new.updates }
    {
        self.predicates = None;
        self.set.add_update(part, update)
    }

    /// The predicates among the items part by part, where there are more than a few items.
    pub fn predicates(&self, alloc: Global) -> Result<Option<Predicates>, NoMemory>
        ensures { IfOk result (λ ps. IfSome ps (ArePredsOf self.now.items)) }
    {
        let items = self.set.items();
        if items.len() <= FEW {
            return Ok(None);
        }
        Ok(Some(Predicates::among(alloc, items)?))
    }

    /// Keeps the predicates among the items part by part.
    pub fn sort(&mut self, predicates: Option<Predicates>)
        requires { IfSome predicates (ArePredsOf self.old.items) }
        ensures { self.new ≡ self.old }
    {
        self.predicates = predicates;
    }

    /// The pending changes of a part, word by word; none where it has no update.
    pub(crate) fn changes(&self, part: u32) -> &[Change]
        ensures { result.now ≡ changes_of self.now.updates part }
    {
        self.set.changes(part)
    }

    /// The pending change of a word, or `Keep`.
    pub fn pending(&self, part: u32, word: u32) -> Change
        ensures change { result ≡ change_at self.now.updates part word }
        ensures ordered { AreUpdates self.now.updates }
    {
        self.set.pending(part, word)
    }

    /// Whether the part has a pending update that puts a value at every word.
    pub(crate) fn overwrites(&self, part: u32) -> bool
        ensures { result ≡ overwrites (changes_of self.now.updates part) }
    {
        self.set.overwrites(part)
    }

    /// Whether any part has a pending update.
    pub(crate) fn has_updates(&self) -> bool
        ensures { result ≡ nat_lt 0 (length self.now.updates) }
    {
        self.set.has_updates()
    }

    /// The items, in the order in which they came.
    pub fn items(&self) -> &[Item]
        ensures items { result.now ≡ self.now.items }
        ensures few { length result.now < 2 ^ 32 }
    {
        self.set.items()
    }

    /// Copies the pending updates into the room of other ones, which are taken away.
    pub(crate) fn copy_updates(&self, alloc: Global, updates: &mut Updates) -> Result<(), NoMemory>
        ensures updates { OnOk result (updates.new.items ≡ self.now.updates) }
        ensures ordered { AreUpdates self.now.updates }
    {
        let room = mem::replace(updates, Updates::new(alloc));
        *updates = self.set.updates_into(room)?;
        Ok(())
    }

    /// Takes all items and updates away. Their room stays.
    pub(crate) fn clear(&mut self)
        ensures { self.new ≡ record { items = []; updates = [] } }
    {
        self.predicates = None;
        self.set.clear();
    }

    /// One watch for each observed part.
    pub fn observed(&self) -> Result<Watches, NoMemory>
        ensures { IfOk result (λ l. IsObserved self.now.items (map watched l.items)) }
    {
        self.set.observed()
    }

    /// What is left of an item below the pending updates.
    pub(crate) fn left_of(&self, item: &Item) -> Option<Item>
        ensures { option_to_list result ≡ rebased_one self.now.updates item.now }
    {
        match item {
            Item::Seen(part) => {
                if self.overwrites(*part) {
                    None
                } else {
                    Some(*item)
                }
            }
            Item::Holds(pred) => left_of_pred(pred, self.pending(pred.part, pred.word)),
        }
    }

    /// Whether the type finds the predicates on a part to be true of the words that were read.
    pub fn all_so<T: TxType>(&self, ty: &T, loaded_words: &LoadedWords, part: u32) -> bool
        ensures { result ≡ list_all (is_so part loaded_words.now.items) self.now.items }
    {
        match &self.predicates {
            Some(predicates) => predicates.are_true(ty, loaded_words, part),
            None => all_so(ty, self.set.items(), loaded_words, part),
        }
    }
}

// What is left of a predicate below the change of its word.
fn left_of_pred(pred: &Pred, change: Change) -> Option<Item>
    ensures { option_to_list result ≡ moved pred.now change }
{
    match change {
        Change::Keep => Some(Item::Holds(*pred)),
        Change::Put(_) => None,
        Change::Add(_) => Some(Item::Holds(Pred {
            shift: apply_word(change, pred.shift),
            ..*pred
        })),
    }
}

// The same by going through the items.
fn all_so<T: TxType>(ty: &T, items: &[Item], loaded_words: &LoadedWords, part: u32) -> bool
    ensures { result ≡ list_all (is_so part loaded_words.now.items) items.now }
{
    items.iter().all(|item| is_so(ty, item, loaded_words, part))
}

fn is_so<T: TxType>(ty: &T, item: &Item, loaded_words: &LoadedWords, part: u32) -> bool
    ensures { result ≡ is_so part loaded_words.now.items item.now }
{
    match item {
        Item::Seen(_) => true,
        Item::Holds(pred) => {
            pred.part != part || ty.check(pred, loaded_words.value(part, pred.word))
        }
    }
}
