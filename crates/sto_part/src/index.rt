//! Places of parts, found by their numbers, and forgotten in one step.
ghost use Rattle.std.specs.Prelude.{◌≡◌, ◌+◌, ◌^◌, ◌<◌, ◌≤◌, ℕ, ◌++◌, length, nat_eq, if◌then◌else◌, Some, None, IsSome, replicate, unwrap_or, OnOk, OnErr};
ghost use Rattle.std.specs.HashMap.{get, IsUnchanged};
ghost use Rattle.sto_part.specs.Index.{place_at, HasRoom};
ghost use Rattle.sto_part.specs.Stamps.{fresh, place_of};

use crate::NoMemory;
use crate::list::List;
use std::alloc::Global;
use std::collections::HashMap;
use std::marker::Model;

// Parts below this number have a stamp at their number, 512 KB of them at most; those from it on are found by their hash, so that an
// index takes memory for the parts that were noted and not up to the highest one.
const NEAR_END: u32 = 65_536;

// A map of more stamps than these is made anew where all places are forgotten.
const MOST_FAR: usize = 4_096;

/// A place, and the generation in which it was noted.
#[derive(Clone, Copy, Debug)]
pub struct Stamp {
    /// The generation.
    pub generation: u32,
    /// The place.
    pub place: u32,
}

/// Places of parts by their numbers. All are forgotten in one step, by a generation that no stamp has.
#[derive(Drop)]
pub struct PartIndex {
    near: List<Stamp>,
    far: HashMap<u32, Stamp>,
    generation: u32,
}

impl Model for PartIndex {
    ghost use Rattle.std.specs.Prelude.{ℕ, ◌≤◌, nat_eq, length, IfSome};
    ghost use Rattle.std.specs.List.{All};
    ghost use Rattle.std.specs.HashMap.{get};
    ghost use Rattle.sto_part.specs.Index.{Places, near_end};
    ghost use Rattle.sto_part.specs.Stamps.{IsUpTo, places_by};

    ghost Value = { Places };

    ghost view = { λ i. places_by i.generation i.near.items i.far.entries };

    ghost invariant = { λ i. (1 ≤ i.generation) × (length i.near.items ≤ near_end) × All (IsUpTo i.generation) i.near.items
        × ((part : ℕ) → IfSome (get nat_eq i.far part) (IsUpTo i.generation)) };
}

impl PartIndex {
    /// No place, and no room.
    pub fn new(alloc: Global) -> PartIndex
        ensures { (part : ℕ) → place_at result part ≡ None }
    {
        PartIndex {
            near: List::new(alloc),
            far: HashMap::new(alloc),
            generation: 1,
        }
    }

    /// The place of a part, if one was noted.
    pub fn get(&self, part: u32) -> Option<u32>
        ensures { result ≡ place_at self.now part }
    {
        if part < self.near.len() {
            return told(*self.near.get(part), self.generation);
        }
        if part < NEAR_END {
            return None;
        }
        match self.far.get(&part) {
            Some(stamp) => told(*stamp, self.generation),
            None => None,
        }
    }

    /// Makes room for the place of a part.
    pub fn reserve(&mut self, part: u32) -> Result<(), NoMemory>
        ensures same { (q : ℕ) → place_at self.new q ≡ place_at self.old q }
        ensures room { (q : ℕ) → HasRoom self.old q → HasRoom self.new q }
        ensures ok { OnOk result (HasRoom self.new part) }
    {
        if part >= NEAR_END {
            add_far(&mut self.far, part)?;
            return Ok(());
        }
        let have = self.near.len();
        if part < have {
            return Ok(());
        }
        lengthen(&mut self.near, part + 1 - have)?;
        Ok(())
    }

    /// Notes the place of a part for which there is room.
    pub fn put(&mut self, part: u32, place: u32)
        requires { HasRoom self.old part }
        ensures at { (q : ℕ) → place_at self.new q ≡ (if nat_eq part q then Some place else place_at self.old q) }
        ensures room { (q : ℕ) → HasRoom self.old q → HasRoom self.new q }
    {
        let stamp = Stamp {
            generation: self.generation,
            place,
        };
        if part < NEAR_END {
            self.near.set(part, stamp);
        } else {
            set_far(&mut self.far, part, stamp);
        }
    }

    /// Forgets all places. The room for near parts stays, and that for far ones where they are few.
    pub fn clear(&mut self)
        ensures { (q : ℕ) → place_at self.new q ≡ None }
    {
        if self.generation < u32::MAX && self.far.len() <= MOST_FAR {
            self.generation += 1;
        } else {
            self.begin_anew();
        }
    }

    // Takes all stamps away.
    fn begin_anew(&mut self)
        ensures { (q : ℕ) → place_at self.new q ≡ None }
    {
        self.far = HashMap::new(self.near.allocator());
        self.near.clear();
        self.generation = 1;
    }
}

// The place of a stamp, if it is of this generation.
fn told(stamp: Stamp, generation: u32) -> Option<u32>
    ensures { result ≡ place_of generation stamp }
{
    if stamp.generation == generation {
        Some(stamp.place)
    } else {
        None
    }
}

// Adds a stamp of no generation for a part that has none.
fn add_far(far: &mut HashMap<u32, Stamp>, part: u32) -> Result<(), NoMemory>
    ensures ok { OnOk result ((q : ℕ) → get nat_eq far.new q ≡ (if nat_eq part q then Some (unwrap_or (get nat_eq far.old part) fresh) else get nat_eq far.old q)) }
    ensures err { OnErr result (IsUnchanged far.old far.new) }
{
    if far.contains_key(&part) {
        return Ok(());
    }
    match far.insert(
        part,
        Stamp {
            generation: 0,
            place: 0,
        },
    ) {
        Ok(_) => Ok(()),
        Err(_) => Err(NoMemory),
    }
}

// Adds so many stamps of no generation.
fn lengthen(stamps: &mut List<Stamp>, more: u32) -> Result<(), NoMemory>
    requires { length stamps.old.items + more < 2 ^ 32 }
    ensures ok { OnOk result (stamps.new.items ≡ stamps.old.items ++ replicate more fresh) }
    ensures err { OnErr result (stamps.new ≡ stamps.old) }
{
    stamps.reserve(more)?;
    for _ in 0..more {
        stamps.push_spare(Stamp {
            generation: 0,
            place: 0,
        });
    }
    Ok(())
}

// Makes this the stamp of a part that has one.
fn set_far(far: &mut HashMap<u32, Stamp>, part: u32, stamp: Stamp)
    requires { IsSome (get nat_eq far.old part) }
    ensures { (q : ℕ) → get nat_eq far.new q ≡ (if nat_eq part q then Some stamp else get nat_eq far.old q) }
{
    if let Some(kept) = far.get_mut(&part) {
        *kept = stamp;
    }
}
