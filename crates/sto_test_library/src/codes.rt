//! Code that asks each call of one kind of objects.
ghost use Rattle.sto_test_library.specs.Calls.{box_calls, counter_calls, array_calls, array_writes, hash_writes, hash_reads, tree_writes, tree_reads, vector_writes, vector_reads, swap, give_up};

use std::convert::Infallible;
use sto_library::{Action, ArrayId, BoxId, CounterId, HashId, Stop, Test, TreeId, Tx, VectorId};

// What three writes answered, and then a read.
type Written = (bool, bool, bool, Option<i64>);

/// Asks a box.
#[derive(Clone, Copy)]
pub(crate) struct BoxCalls(pub(crate) BoxId);

impl Action for BoxCalls {
    type Out = (i64, i64);

    type Reason = Infallible;

    ghost does = { λ c. box_calls c.0 };

    ghost most = { λ _. 3 };

    fn most(&self) -> u32 {
        3
    }

    fn run(&self, tx: &mut Tx<'_>) -> Result<(i64, i64), Stop<Infallible>> {
        let was = self.0.get(tx)?;
        self.0.set(tx, 8)?;
        let is = self.0.get(tx)?;
        Ok((was, is))
    }
}

/// Asks a counter.
#[derive(Clone, Copy)]
pub(crate) struct CounterCalls(pub(crate) CounterId);

impl Action for CounterCalls {
    type Out = (bool, bool, bool, i64);

    type Reason = Infallible;

    ghost does = { λ c. counter_calls c.0 };

    ghost most = { λ _. 4 };

    fn most(&self) -> u32 {
        4
    }

    fn run(&self, tx: &mut Tx<'_>) -> Result<(bool, bool, bool, i64), Stop<Infallible>> {
        let added = self.0.add(tx, 4)?;
        let less = self.0.test(tx, Test::Lt, 9)?;
        let taken = self.0.take(tx, 20)?;
        let is = self.0.get(tx)?;
        Ok((added, less, taken, is))
    }
}

/// Asks an array.
#[derive(Clone, Copy)]
pub(crate) struct ArrayCalls(pub(crate) ArrayId);

impl Action for ArrayCalls {
    type Out = (Option<i64>, bool, bool, Option<i64>);

    type Reason = Infallible;

    ghost does = { λ c. array_calls c.0 };

    ghost most = { λ _. 4 };

    fn most(&self) -> u32 {
        4
    }

    fn run(
        &self,
        tx: &mut Tx<'_>,
    ) -> Result<(Option<i64>, bool, bool, Option<i64>), Stop<Infallible>> {
        let was = self.0.get(tx, 2)?;
        let set = self.0.set(tx, 2, 6)?;
        let beyond = self.0.add(tx, 3, 1)?;
        let is = self.0.get(tx, 2)?;
        Ok((was, set, beyond, is))
    }
}

/// Asks an array.
#[derive(Clone, Copy)]
pub(crate) struct ArrayWrites(pub(crate) ArrayId);

impl Action for ArrayWrites {
    type Out = (bool, Option<i64>);

    type Reason = Infallible;

    ghost does = { λ c. array_writes c.0 };

    ghost most = { λ _. 2 };

    fn most(&self) -> u32 {
        2
    }

    fn run(&self, tx: &mut Tx<'_>) -> Result<(bool, Option<i64>), Stop<Infallible>> {
        let added = self.0.add(tx, 1, 5)?;
        let is = self.0.get(tx, 1)?;
        Ok((added, is))
    }
}

/// Asks a hash.
#[derive(Clone, Copy)]
pub(crate) struct HashWrites(pub(crate) HashId);

impl Action for HashWrites {
    type Out = Written;

    type Reason = Infallible;

    ghost does = { λ c. hash_writes c.0 };

    ghost most = { λ _. 4 };

    fn most(&self) -> u32 {
        4
    }

    fn run(&self, tx: &mut Tx<'_>) -> Result<Written, Stop<Infallible>> {
        let put = self.0.put(tx, 5, 50)?;
        let also = self.0.put(tx, 6, 60)?;
        let removed = self.0.remove(tx, 7)?;
        let is = self.0.get(tx, 6)?;
        Ok((put, also, removed, is))
    }
}

/// Asks a hash.
#[derive(Clone, Copy)]
pub(crate) struct HashReads(pub(crate) HashId);

impl Action for HashReads {
    type Out = (bool, i64, Option<i64>);

    type Reason = Infallible;

    ghost does = { λ c. hash_reads c.0 };

    ghost most = { λ _. 3 };

    fn most(&self) -> u32 {
        3
    }

    fn run(&self, tx: &mut Tx<'_>) -> Result<(bool, i64, Option<i64>), Stop<Infallible>> {
        let has = self.0.has(tx, 5)?;
        let many = self.0.len(tx)?;
        let none = self.0.get(tx, 9)?;
        Ok((has, many, none))
    }
}

/// Asks a tree.
#[derive(Clone, Copy)]
pub(crate) struct TreeWrites(pub(crate) TreeId);

impl Action for TreeWrites {
    type Out = Written;

    type Reason = Infallible;

    ghost does = { λ c. tree_writes c.0 };

    ghost most = { λ _. 4 };

    fn most(&self) -> u32 {
        4
    }

    fn run(&self, tx: &mut Tx<'_>) -> Result<Written, Stop<Infallible>> {
        let put = self.0.put(tx, 3, 30)?;
        let also = self.0.put(tx, 8, 80)?;
        let removed = self.0.remove(tx, 4)?;
        let is = self.0.get(tx, 8)?;
        Ok((put, also, removed, is))
    }
}

/// Asks a tree.
#[derive(Clone, Copy)]
pub(crate) struct TreeReads(pub(crate) TreeId);

impl Action for TreeReads {
    type Out = (Option<i64>, i64, i64);

    type Reason = Infallible;

    ghost does = { λ c. tree_reads c.0 };

    ghost most = { λ _. 3 };

    fn most(&self) -> u32 {
        3
    }

    fn run(&self, tx: &mut Tx<'_>) -> Result<(Option<i64>, i64, i64), Stop<Infallible>> {
        let next = self.0.next(tx, 4)?;
        let within = self.0.count(tx, 0, 9)?;
        let many = self.0.len(tx)?;
        Ok((next, within, many))
    }
}

/// Asks a vector.
#[derive(Clone, Copy)]
pub(crate) struct VectorWrites(pub(crate) VectorId);

impl Action for VectorWrites {
    type Out = Written;

    type Reason = Infallible;

    ghost does = { λ c. vector_writes c.0 };

    ghost most = { λ _. 4 };

    fn most(&self) -> u32 {
        4
    }

    fn run(&self, tx: &mut Tx<'_>) -> Result<Written, Stop<Infallible>> {
        let first = self.0.push(tx, 7)?;
        let second = self.0.push(tx, 8)?;
        let third = self.0.push(tx, 9)?;
        let last = self.0.pop(tx)?;
        Ok((first, second, third, last))
    }
}

/// Asks a vector.
#[derive(Clone, Copy)]
pub(crate) struct VectorReads(pub(crate) VectorId);

impl Action for VectorReads {
    type Out = (Option<i64>, bool, i64);

    type Reason = Infallible;

    ghost does = { λ c. vector_reads c.0 };

    ghost most = { λ _. 3 };

    fn most(&self) -> u32 {
        3
    }

    fn run(&self, tx: &mut Tx<'_>) -> Result<(Option<i64>, bool, i64), Stop<Infallible>> {
        let first = self.0.get(tx, 0)?;
        let some = self.0.test(tx, Test::Ge, 1)?;
        let many = self.0.len(tx)?;
        Ok((first, some, many))
    }
}

/// Gives what a box held, and leaves this value in it.
#[derive(Clone, Copy)]
pub(crate) struct Swap(pub(crate) BoxId, pub(crate) i64);

impl Action for Swap {
    type Out = i64;

    type Reason = Infallible;

    ghost does = { λ c. swap c.0 c.1 };

    ghost most = { λ _. 2 };

    fn most(&self) -> u32 {
        2
    }

    fn run(&self, tx: &mut Tx<'_>) -> Result<i64, Stop<Infallible>> {
        let was = self.0.get(tx)?;
        self.0.set(tx, self.1)?;
        Ok(was)
    }
}

/// Why a transaction is given up: nobody wants what a box holds.
#[derive(Clone, Copy, PartialEq, Eq, Debug)]
pub(crate) struct Unwanted {
    pub(crate) value: i64,
}

/// Gets the value of a box, writes another one, and then gives the transaction up for what it got.
#[derive(Clone, Copy)]
pub(crate) struct GiveUp(pub(crate) BoxId);

impl Action for GiveUp {
    ghost use Rattle.sto_test_library.specs.declared.codes.Unwanted.{Unwanted};

    type Out = i64;

    type Reason = Unwanted;

    ghost does = { λ c. give_up {E = Unwanted} (λ value. record { value = value }) c.0 };

    ghost most = { λ _. 2 };

    fn most(&self) -> u32 {
        2
    }

    fn run(&self, tx: &mut Tx<'_>) -> Result<i64, Stop<Unwanted>> {
        let value = self.0.get(tx)?;
        self.0.set(tx, 99)?;
        tx.cancel(Unwanted { value })
    }
}
