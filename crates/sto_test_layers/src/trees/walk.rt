//! A walk over a tree beside an ordered map.
ghost use Rattle.std.specs.Prelude.{◌≤◌};

use crate::trees::asking::{Answer, ask, opening_of};
use crate::trees::calls::call;
use crate::trees::map::answer;
use rand_core::utils::NextWord;
use rand_pcg::Pcg32;
use std::alloc::{AllocError, Global};
use std::collections::BTreeMap;
use sto_model::{Call, Operation, Reply};
use sto_tree::TTree;

/// What the calls of a walk were answered.
#[derive(Drop)]
pub(crate) struct Tally {
    /// How many answers were other than the map's.
    pub(crate) wrong: u32,
    pub(crate) full: u32,
    pub(crate) absent: u32,
    /// How many pairs there are at the end.
    pub(crate) pairs: usize,
}

/// Asks calls of a tree and of a map. Their keys are among so many numbers, and the two ends of i64.
pub(crate) fn walk(alloc: Global, leaves: u32, span: u32, count: u32) -> Result<Tally, AllocError>
    requires some { 1 ≤ leaves }
    requires few { leaves ≤ 64 }
    requires span { 1 ≤ span }
    requires narrow { span ≤ 1000 }
{
    let tree = TTree::new(leaves);
    let mut contents = opening_of(alloc, &tree)?;
    let mut map = BTreeMap::new(alloc);
    let mut random = Pcg32::new(u64::from(leaves), 1);
    let mut tally = Tally {
        wrong: 0,
        full: 0,
        absent: 0,
        pairs: 0,
    };
    for _ in 0..count {
        let call = random_call(&mut random, span);
        let told = ask(alloc, &tree, &call, &mut contents)?;
        let expected = answer(alloc, &mut map, 4 * leaves as usize, &call)?;
        tally.count(told, &expected);
    }
    tally.pairs = map.len();
    Ok(tally)
}

impl Tally {
    fn count(&mut self, told: Option<Answer>, expected: &Reply) {
        match expected {
            Reply::Full => self.full = self.full.saturating_add(1),
            Reply::Absent => self.absent = self.absent.saturating_add(1),
            _ => {}
        }
        let right = match told {
            Some(answer) => answer.reply == *expected,
            None => false,
        };
        if !right {
            self.wrong = self.wrong.saturating_add(1);
        }
    }
}

// Puts more often than other calls. Ranges are short.
fn random_call(random: &mut Pcg32, span: u32) -> Call
    requires span { 1 ≤ span }
    requires narrow { span ≤ 1000 }
{
    let key = random_key(random, span);
    let other = i64::from(random.next_word() % 100);
    match random.next_word() % 20 {
        0..8 => call(Operation::Put, key, other),
        8..12 => call(Operation::Remove, key, 0),
        12 | 13 => call(Operation::Get, key, 0),
        14 => call(Operation::Len, 0, 0),
        15 | 16 => call(Operation::Next, key, 0),
        17 | 18 => call(Operation::Count, key, key.saturating_add(other)),
        _ => call(Operation::Scan, key, key.saturating_add(other)),
    }
}

// The least and the greatest number of i64 are two of the keys.
fn random_key(random: &mut Pcg32, span: u32) -> i64
    requires span { 1 ≤ span }
    requires narrow { span ≤ 1000 }
{
    let number = random.next_word() % (span + 2);
    if number == span {
        i64::MIN
    } else if number > span {
        i64::MAX
    } else {
        7 * i64::from(number)
    }
}
