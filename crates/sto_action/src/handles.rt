//! The objects of a store, as code names them, and their calls.
ghost use Rattle.std.specs.Prelude.{◌≡◌, pos};
ghost use Rattle.sto_action.specs.Progs.{Follows, Gives};
ghost use Rattle.sto_action.specs.Steps.{box_get, box_set, counter_get, counter_add, counter_test, counter_take, array_get, array_set, array_add, hash_get, hash_put, hash_remove, hash_has, hash_len, tree_get, tree_put, tree_remove, tree_len, tree_next, tree_count, vector_get, vector_test, vector_len, vector_push, vector_pop};

use crate::short_reply::{is_done, is_yes, number, perhaps};
use crate::tx::{Stop, Tx};
use sto_model::{Call, Operation, test_number};
use sto_part::Test;

/// A box of a store, by the number of the object.
#[derive(Clone, Copy, PartialEq, Eq, Debug)]
pub struct BoxId {
    pub number: u32,
}

#[tactic(auto, using(crate::proofs::Following::asked_follows))]
impl BoxId {
    /// Its value.
    pub fn get<E>(self, tx: &mut Tx<'_>) -> Result<i64, Stop<E>>
        ensures { Follows (box_get self Gives) tx.old tx.new result }
    {
        let heard = tx.ask(Call::new(self.number, Operation::Get, 0, 0))?;
        Ok(number(heard))
    }

    /// Makes this its value.
    pub fn set<E>(self, tx: &mut Tx<'_>, value: i64) -> Result<(), Stop<E>>
        ensures { Follows (box_set self value (Gives tt)) tx.old tx.new result }
    {
        let _heard = tx.ask(Call::new(self.number, Operation::Set, value, 0))?;
        Ok(())
    }
}

/// A counter of a store, by the number of the object.
#[derive(Clone, Copy, PartialEq, Eq, Debug)]
pub struct CounterId {
    pub number: u32,
}

#[tactic(auto, using(crate::proofs::Following::asked_follows))]
impl CounterId {
    /// Its value.
    pub fn get<E>(self, tx: &mut Tx<'_>) -> Result<i64, Stop<E>>
        ensures { Follows (counter_get self Gives) tx.old tx.new result }
    {
        let heard = tx.ask(Call::new(self.number, Operation::Get, 0, 0))?;
        Ok(number(heard))
    }

    /// Adds to it; false where the sum would be no number of 64 bits, and then it stays.
    pub fn add<E>(self, tx: &mut Tx<'_>, by: i64) -> Result<bool, Stop<E>>
        ensures { Follows (counter_add self by Gives) tx.old tx.new result }
    {
        let heard = tx.ask(Call::new(self.number, Operation::Add, by, 0))?;
        Ok(is_done(heard))
    }

    /// Whether its value compares so.
    pub fn test<E>(self, tx: &mut Tx<'_>, test: Test, than: i64) -> Result<bool, Stop<E>>
        ensures { Follows (counter_test self test than Gives) tx.old tx.new result }
    {
        let heard = tx.ask(Call::new(self.number, Operation::Test, test_number(test), than))?;
        Ok(is_yes(heard))
    }

    /// Takes from it; false where it has less, or the rest would be no number of 64 bits, and then it stays.
    pub fn take<E>(self, tx: &mut Tx<'_>, by: i64) -> Result<bool, Stop<E>>
        ensures { Follows (counter_take self by Gives) tx.old tx.new result }
    {
        let heard = tx.ask(Call::new(self.number, Operation::Take, by, 0))?;
        Ok(is_yes(heard))
    }
}

/// An array of a store, by the number of the object.
#[derive(Clone, Copy, PartialEq, Eq, Debug)]
pub struct ArrayId {
    pub number: u32,
}

#[tactic(auto, using(crate::proofs::Following::asked_follows))]
impl ArrayId {
    /// The value at a place; None where it has no such place.
    pub fn get<E>(self, tx: &mut Tx<'_>, place: i64) -> Result<Option<i64>, Stop<E>>
        ensures { Follows (array_get self place Gives) tx.old tx.new result }
    {
        let heard = tx.ask(Call::new(self.number, Operation::Get, place, 0))?;
        Ok(perhaps(heard))
    }

    /// Makes this the value at a place; false where it has no such place.
    pub fn set<E>(self, tx: &mut Tx<'_>, place: i64, value: i64) -> Result<bool, Stop<E>>
        ensures { Follows (array_set self place value Gives) tx.old tx.new result }
    {
        let heard = tx.ask(Call::new(self.number, Operation::Set, place, value))?;
        Ok(is_done(heard))
    }

    /// Adds to the value at a place; false where it has no such place, or the sum would be no number of 64 bits.
    pub fn add<E>(self, tx: &mut Tx<'_>, place: i64, by: i64) -> Result<bool, Stop<E>>
        ensures { Follows (array_add self place by Gives) tx.old tx.new result }
    {
        let heard = tx.ask(Call::new(self.number, Operation::Add, place, by))?;
        Ok(is_done(heard))
    }
}

/// A hash table of a store, by the number of the object.
#[derive(Clone, Copy, PartialEq, Eq, Debug)]
pub struct HashId {
    pub number: u32,
}

#[tactic(auto, using(crate::proofs::Following::asked_follows))]
impl HashId {
    /// The value of a key.
    pub fn get<E>(self, tx: &mut Tx<'_>, key: i64) -> Result<Option<i64>, Stop<E>>
        ensures { Follows (hash_get self key Gives) tx.old tx.new result }
    {
        let heard = tx.ask(Call::new(self.number, Operation::Get, key, 0))?;
        Ok(perhaps(heard))
    }

    /// Gives a key this value; false where the key is new and its bucket is full.
    pub fn put<E>(self, tx: &mut Tx<'_>, key: i64, value: i64) -> Result<bool, Stop<E>>
        ensures { Follows (hash_put self key value Gives) tx.old tx.new result }
    {
        let heard = tx.ask(Call::new(self.number, Operation::Put, key, value))?;
        Ok(is_done(heard))
    }

    /// Takes a key away; false where it is not there.
    pub fn remove<E>(self, tx: &mut Tx<'_>, key: i64) -> Result<bool, Stop<E>>
        ensures { Follows (hash_remove self key Gives) tx.old tx.new result }
    {
        let heard = tx.ask(Call::new(self.number, Operation::Remove, key, 0))?;
        Ok(is_yes(heard))
    }

    /// Whether a key is there.
    pub fn has<E>(self, tx: &mut Tx<'_>, key: i64) -> Result<bool, Stop<E>>
        ensures { Follows (hash_has self key Gives) tx.old tx.new result }
    {
        let heard = tx.ask(Call::new(self.number, Operation::Has, key, 0))?;
        Ok(is_yes(heard))
    }

    /// How many keys there are.
    pub fn len<E>(self, tx: &mut Tx<'_>) -> Result<i64, Stop<E>>
        ensures { Follows (hash_len self Gives) tx.old tx.new result }
    {
        let heard = tx.ask(Call::new(self.number, Operation::Len, 0, 0))?;
        Ok(number(heard))
    }
}

/// A tree of a store, by the number of the object.
#[derive(Clone, Copy, PartialEq, Eq, Debug)]
pub struct TreeId {
    pub number: u32,
}

#[tactic(auto, using(crate::proofs::Following::asked_follows))]
impl TreeId {
    /// The value of a key.
    pub fn get<E>(self, tx: &mut Tx<'_>, key: i64) -> Result<Option<i64>, Stop<E>>
        ensures { Follows (tree_get self key Gives) tx.old tx.new result }
    {
        let heard = tx.ask(Call::new(self.number, Operation::Get, key, 0))?;
        Ok(perhaps(heard))
    }

    /// Gives a key this value; false where the key is new and the tree is full.
    pub fn put<E>(self, tx: &mut Tx<'_>, key: i64, value: i64) -> Result<bool, Stop<E>>
        ensures { Follows (tree_put self key value Gives) tx.old tx.new result }
    {
        let heard = tx.ask(Call::new(self.number, Operation::Put, key, value))?;
        Ok(is_done(heard))
    }

    /// Takes a key away; false where it is not there.
    pub fn remove<E>(self, tx: &mut Tx<'_>, key: i64) -> Result<bool, Stop<E>>
        ensures { Follows (tree_remove self key Gives) tx.old tx.new result }
    {
        let heard = tx.ask(Call::new(self.number, Operation::Remove, key, 0))?;
        Ok(is_yes(heard))
    }

    /// How many keys there are.
    pub fn len<E>(self, tx: &mut Tx<'_>) -> Result<i64, Stop<E>>
        ensures { Follows (tree_len self Gives) tx.old tx.new result }
    {
        let heard = tx.ask(Call::new(self.number, Operation::Len, 0, 0))?;
        Ok(number(heard))
    }

    /// The least key from this one on.
    pub fn next<E>(self, tx: &mut Tx<'_>, from: i64) -> Result<Option<i64>, Stop<E>>
        ensures { Follows (tree_next self from Gives) tx.old tx.new result }
    {
        let heard = tx.ask(Call::new(self.number, Operation::Next, from, 0))?;
        Ok(perhaps(heard))
    }

    /// How many keys there are from the first to the last.
    pub fn count<E>(self, tx: &mut Tx<'_>, first: i64, last: i64) -> Result<i64, Stop<E>>
        ensures { Follows (tree_count self first last Gives) tx.old tx.new result }
    {
        let heard = tx.ask(Call::new(self.number, Operation::Count, first, last))?;
        Ok(number(heard))
    }
}

/// A vector of a store, by the number of the object.
#[derive(Clone, Copy, PartialEq, Eq, Debug)]
pub struct VectorId {
    pub number: u32,
}

#[tactic(auto, using(crate::proofs::Following::asked_follows))]
impl VectorId {
    /// The value at a place; None past its end.
    pub fn get<E>(self, tx: &mut Tx<'_>, place: i64) -> Result<Option<i64>, Stop<E>>
        ensures { Follows (vector_get self place Gives) tx.old tx.new result }
    {
        let heard = tx.ask(Call::new(self.number, Operation::Get, place, 0))?;
        Ok(perhaps(heard))
    }

    /// Whether its length compares so.
    pub fn test<E>(self, tx: &mut Tx<'_>, test: Test, than: i64) -> Result<bool, Stop<E>>
        ensures { Follows (vector_test self test than Gives) tx.old tx.new result }
    {
        let heard = tx.ask(Call::new(self.number, Operation::Test, test_number(test), than))?;
        Ok(is_yes(heard))
    }

    /// How many values there are.
    pub fn len<E>(self, tx: &mut Tx<'_>) -> Result<i64, Stop<E>>
        ensures { Follows (vector_len self Gives) tx.old tx.new result }
    {
        let heard = tx.ask(Call::new(self.number, Operation::Len, 0, 0))?;
        Ok(number(heard))
    }

    /// Adds a value last; false where it is full.
    pub fn push<E>(self, tx: &mut Tx<'_>, value: i64) -> Result<bool, Stop<E>>
        ensures { Follows (vector_push self value Gives) tx.old tx.new result }
    {
        let heard = tx.ask(Call::new(self.number, Operation::Push, value, 0))?;
        Ok(is_done(heard))
    }

    /// Takes the last value away.
    pub fn pop<E>(self, tx: &mut Tx<'_>) -> Result<Option<i64>, Stop<E>>
        ensures { Follows (vector_pop self Gives) tx.old tx.new result }
    {
        let heard = tx.ask(Call::new(self.number, Operation::Pop, 0, 0))?;
        Ok(perhaps(heard))
    }
}
