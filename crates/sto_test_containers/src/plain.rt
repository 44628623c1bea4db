//! Plain objects of std, which answer calls as containers are to.
use std::alloc::{AllocError, Global};
use std::collections::{BTreeMap, VecDeque};
use sto_model::{Call, Operation, Pairs, Reply};

/// A plain object.
pub(crate) trait Plain {
    /// What it answers to a call; it becomes what it is after it.
    fn answer(&mut self, alloc: Global, call: &Call) -> Result<Reply, AllocError>;

    /// Its rows in rising key.
    fn rows(&self, alloc: Global) -> Result<Vec<(i64, i64)>, AllocError>;
}

/// The words of a record by their numbers, or the values of a map by their keys, and how many there may be.
#[derive(Drop)]
pub(crate) struct PlainRows {
    pub(crate) values: BTreeMap<i64, i64>,
    pub(crate) most: usize,
}

/// The values of a ring, the first first, and how many there may be.
#[derive(Drop)]
pub(crate) struct PlainRing {
    pub(crate) values: VecDeque<i64>,
    pub(crate) most: usize,
}

impl Plain for PlainRows {
    fn answer(&mut self, alloc: Global, call: &Call) -> Result<Reply, AllocError> {
        let here = self.values.get(&call.a).copied();
        match (call.operation, here) {
            (Operation::Get, Some(value)) => Ok(Reply::Value(value)),
            (Operation::Set, Some(_)) => self.set(call.a, call.b),
            (Operation::Add, Some(value)) => self.set(call.a, value.wrapping_add(call.b)),
            (Operation::Put, None) if self.values.len() >= self.most => Ok(Reply::Full),
            (Operation::Put, _) => self.set(call.a, call.b),
            (Operation::Remove, _) => Ok(Reply::Flag(self.values.remove(&call.a).is_some())),
            (Operation::Has, _) => Ok(Reply::Flag(here.is_some())),
            (Operation::Scan, _) => {
                let rows = self.rows(alloc)?;
                Ok(Reply::Pairs(pairs_of(alloc, rows.as_slice())?))
            }
            _ => Ok(Reply::Absent),
        }
    }

    fn rows(&self, alloc: Global) -> Result<Vec<(i64, i64)>, AllocError> {
        let mut rows = Vec::new(alloc);
        for (key, value) in self.values.iter() {
            rows.push((*key, *value))?;
        }
        Ok(rows)
    }
}

impl PlainRows {
    fn set(&mut self, key: i64, value: i64) -> Result<Reply, AllocError> {
        self.values.insert(key, value)?;
        Ok(Reply::Done)
    }
}

impl Plain for PlainRing {
    fn answer(&mut self, _alloc: Global, call: &Call) -> Result<Reply, AllocError> {
        match call.operation {
            Operation::Has => Ok(Reply::Flag(!self.values.is_empty())),
            Operation::Len => Ok(Reply::Value(self.values.len() as i64)),
            Operation::Push if self.values.len() >= self.most => Ok(Reply::Full),
            Operation::Push => {
                self.values.push_back(call.a)?;
                Ok(Reply::Done)
            }
            Operation::Pop => Ok(value_or_absent(self.values.pop_front())),
            _ => Ok(value_or_absent(self.values.front().copied())),
        }
    }

    fn rows(&self, alloc: Global) -> Result<Vec<(i64, i64)>, AllocError> {
        let mut rows = Vec::new(alloc);
        let mut key: i64 = 0;
        for value in self.values.iter() {
            rows.push((key, *value))?;
            key = key.saturating_add(1);
        }
        Ok(rows)
    }
}

fn value_or_absent(value: Option<i64>) -> Reply {
    match value {
        Some(value) => Reply::Value(value),
        None => Reply::Absent,
    }
}

fn pairs_of(alloc: Global, rows: &[(i64, i64)]) -> Result<Pairs, AllocError> {
    let mut pairs = Pairs::new(alloc);
    for row in rows {
        if pairs.len() < u32::MAX {
            pairs.push(*row).map_err(|_| AllocError)?;
        }
    }
    Ok(pairs)
}
