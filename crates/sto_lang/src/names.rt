//! The names of variables.
ghost use Rattle.std.specs.Prelude.{◌≡◌, ◌^◌, ◌<◌, ◌++◌, ◌∷◌, [], true, false, length, map, slice_get, position, IfOk, Some};
ghost use Rattle.std.specs.Str.{bytes_eq};

use crate::Text;
use crate::name_table::place_in;
use std::alloc::{AllocError, Global};
use std::marker::Model;
use std::sync::Arc;
use sto_part::{List, NoMemory};
use sto_syntax::Name;

/// The names of variables, in the order in which they are first assigned: the first of a list that transactions share.
#[derive(Drop)]
pub struct Names {
    shared: Arc<List<Text>, Global>,
    count: u32,
}

impl Model for Names {
    ghost use Rattle.std.specs.Prelude.{ℕ, List, ◌≤◌, length, map, take};
    ghost use Rattle.std.specs.Arc.{arc_value};

    ghost Value = { List (List ℕ) };

    ghost view = { λ n. take n.count (map (λ name. name.items) (arc_value n.shared).items) };

    ghost invariant = { λ n. n.count ≤ length (map (λ name. name.items) (arc_value n.shared).items) };
}

impl Names {
    #[tactic(auto, using(crate::proofs::SharedNames::all_taken))]
    /// The names that these texts are.
    pub fn of(alloc: Global, texts: List<Text>) -> Result<Names, NoMemory>
        ensures { IfOk result (λ n. n ≡ map (λ name. name.items) texts.items) }
    {
        let count = texts.len();
        match Arc::new(alloc, texts) {
            Ok(shared) => Ok(Names { shared, count }),
            Err(_) => Err(NoMemory),
        }
    }

    #[tactic(auto, using(crate::proofs::SharedNames::taken_count))]
    /// How many there are.
    pub fn len(&self) -> u32
        ensures { result ≡ length self.now }
    {
        self.count
    }

    #[tactic(auto, using(crate::proofs::SharedNames::name_at))]
    /// The name at a place.
    pub fn get(&self, place: u32) -> &Text
        requires { place < length self.now }
        ensures { slice_get self.now place ≡ Some result.now.items }
    {
        self.shared.get(place)
    }

    #[tactic(auto, using(crate::proofs::SharedNames::taken_texts))]
    /// All of them.
    pub(crate) fn texts(&self) -> &[Text]
        ensures names { map (λ name. name.items) result.now ≡ self.now }
        ensures few { length result.now < 2 ^ 32 }
    {
        let texts = self.shared.as_slice();
        &texts[..self.count as usize]
    }

    #[tactic(auto, using(crate::proofs::NameTables::place_of_text))]
    /// The place of a name.
    pub(crate) fn find(&self, name: &Name<'_>) -> Option<u32>
        ensures { result ≡ position (bytes_eq name.now.bytes.now) self.now }
    {
        match place_in(self.texts(), name.bytes()) {
            Some(place) => Some(place as u32),
            None => None,
        }
    }

    /// No name, of a list that a transaction with the same names shares.
    pub(crate) fn none_yet(&self) -> Result<Names, NoMemory>
        ensures { IfOk result (λ n. n ≡ []) }
    {
        match Arc::try_clone(&self.shared) {
            Ok(shared) => Ok(Names { shared, count: 0 }),
            Err(AllocError) => Err(NoMemory),
        }
    }

    /// Adds the name where it is the next of the list, and tells whether it is.
    pub(crate) fn take_next(&mut self, name: &Name<'_>) -> bool
        ensures taken { result ≡ true → self.new ≡ self.old ++ name.now.bytes.now ∷ [] }
        ensures left { result ≡ false → self.new ≡ self.old }
    {
        if self.count < self.shared.len()
            && self.shared.get(self.count).as_bytes() == name.bytes()
        {
            self.count += 1;
            return true;
        }
        false
    }
}
