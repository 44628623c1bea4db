//! A walk over a container beside a plain object.
use crate::asking::{Answer, ask, no_memory, opening_of};
use crate::plain::Plain;
use std::alloc::{AllocError, Global};
use sto_model::{Call, Reply};
use sto_type::TxType;

/// What the calls of a walk were answered.
#[derive(Clone, Copy, PartialEq, Eq, Debug)]
pub(crate) struct Tally {
    /// How many calls were answered, or left rows, other than the plain object.
    pub(crate) wrong: u32,
    pub(crate) full: u32,
    pub(crate) absent: u32,
}

/// Asks calls of a type of one object and of a plain object.
pub(crate) fn walk<T: TxType, P: Plain>(
    alloc: Global,
    ty: &T,
    plain: &mut P,
    calls: &[Call],
) -> Result<Tally, AllocError> {
    let mut contents = opening_of(alloc, ty)?;
    let mut tally = Tally {
        wrong: 0,
        full: 0,
        absent: 0,
    };
    for call in calls {
        let told = ask(alloc, ty, call, &mut contents)?;
        let expected = plain.answer(alloc, call)?;
        let state = ty.rows_at(alloc, &contents, 0).map_err(no_memory)?;
        let rows = plain.rows(alloc)?;
        let same = state.len() == 1 && state.get(0).as_slice() == rows.as_slice();
        tally.count(told, &expected, same);
    }
    Ok(tally)
}

impl Tally {
    fn count(&mut self, told: Option<Answer>, expected: &Reply, same_rows: bool) {
        match expected {
            Reply::Full => self.full = self.full.saturating_add(1),
            Reply::Absent => self.absent = self.absent.saturating_add(1),
            _ => {}
        }
        let same_reply = match told {
            Some(answer) => answer.reply == *expected,
            None => false,
        };
        if !same_reply || !same_rows {
            self.wrong = self.wrong.saturating_add(1);
        }
    }
}
