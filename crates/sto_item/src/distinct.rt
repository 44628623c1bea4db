//! Items of which no two are equal.
ghost use Rattle.std.specs.Prelude.{◌≡◌, ◌^◌, ◌<◌, ◌↔◌, [], ◌∷◌, ◌++◌, length, IsTrue, IfOk, OnOk, OnErr};
ghost use Rattle.std.specs.List.{Contains};
ghost use Rattle.sto_item.specs.Known.{IsKnown, HaveSame};

use crate::item::{Item, Items};
use std::alloc::{AllocError, Global};
use std::collections::HashSet;
use std::marker::Model;
use sto_part::NoMemory;

// So many items are looked through, which takes no memory.
const FEW: usize = 16;

/// Items in the order in which they came, each found in constant time.
#[derive(Drop)]
pub(crate) struct DistinctItems {
    list: Items,
    // The same items, to find them by where there are more than a few.
    known: HashSet<Item>,
}

impl Model for DistinctItems {
    ghost use Rattle.std.specs.Prelude.{List};
    ghost use Rattle.sto_item.specs.Known.{IsKnown};
    ghost use Rattle.sto_item.specs.declared.item.Item.{Item};

    ghost Value = { List Item };

    ghost view = { λ s. s.list.items };

    ghost invariant = { λ s. IsKnown s.list.items s.known.keys };
}

impl DistinctItems {
    /// No item.
    pub fn new(alloc: Global) -> DistinctItems
        ensures { result ≡ [] }
    {
        DistinctItems {
            list: Items::new(alloc),
            known: HashSet::new(alloc),
        }
    }

    /// Whether an equal item is there.
    pub fn contains(&self, item: &Item) -> bool
        ensures { IsTrue result ↔ Contains self.now item.now }
    {
        is_among(self.list.as_slice(), &self.known, item)
    }

    /// Adds an item last to which none is equal.
    pub fn push(&mut self, item: Item) -> Result<(), NoMemory>
        requires { Contains self.old item → ⊥ }
        ensures ok { OnOk result (self.new ≡ self.old ++ item ∷ []) }
        ensures err { OnErr result (self.new ≡ self.old) }
    {
        if self.list.len() == u32::MAX {
            return Err(NoMemory);
        }
        self.list.reserve(1)?;
        note(
            self.list.allocator(),
            &mut self.known,
            self.list.as_slice(),
            item,
        )?;
        self.list.push_spare(item);
        Ok(())
    }

    /// Takes all items away. Their room stays.
    pub fn clear(&mut self)
        ensures { self.new ≡ [] }
    {
        // what is known of them is made anew before it is asked
        self.list.clear();
    }

    /// The items as a slice.
    pub fn as_slice(&self) -> &[Item]
        ensures items { result.now ≡ self.now }
        ensures few { length result.now < 2 ^ 32 }
    {
        self.list.as_slice()
    }

    /// The allocator that the list was made with.
    pub fn allocator(&self) -> Global {
        self.list.allocator()
    }
}

fn is_among(items: &[Item], known: &HashSet<Item>, item: &Item) -> bool
    requires { IsKnown items.now known.now.keys }
    ensures { IsTrue result ↔ Contains items.now item.now }
{
    if items.len() <= FEW {
        items.contains(item)
    } else {
        known.contains(item)
    }
}

// Makes known one item more, if with it they are more than a few.
fn note(
    alloc: Global,
    known: &mut HashSet<Item>,
    items: &[Item],
    item: Item,
) -> Result<(), NoMemory>
    requires known { IsKnown items.now known.old.keys }
    requires absent { Contains items.now item → ⊥ }
    ensures ok { OnOk result (IsKnown (items.now ++ item ∷ []) known.new.keys) }
    ensures err { OnErr result (IsKnown items.now known.new.keys) }
{
    if items.len() < FEW {
        return Ok(());
    }
    if items.len() == FEW {
        match set_of(alloc, items) {
            Ok(set) => *known = set,
            Err(AllocError) => return Err(NoMemory),
        }
    }
    match known.insert(item) {
        Ok(_) => Ok(()),
        Err(_) => Err(NoMemory),
    }
}

fn set_of(alloc: Global, items: &[Item]) -> Result<HashSet<Item>, AllocError>
    ensures { IfOk result (λ s. HaveSame items.now s.keys) }
{
    items.iter().copied().collect(alloc)
}
