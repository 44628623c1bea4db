//! Worked calls: what is answered, observed and written.
use crate::asking::{Answer, ask, opening_of};
use std::alloc::{AllocError, Global};
use sto_item::{Item, Updates};
use sto_model::{Call, Reply};
use sto_part::{Change, Pred, Test};
use sto_type::TxType;

/// A part and the changes of its words.
pub(crate) type Entry = (u32, &'static [Change]);

/// Whether the parts of a type have these widths at the opening.
pub(crate) fn has_widths<T: TxType>(
    alloc: Global,
    ty: &T,
    widths: &[u32],
) -> Result<bool, AllocError> {
    let contents = opening_of(alloc, ty)?;
    if contents.parts() != ty.parts() || contents.parts() as usize != widths.len() {
        return Ok(false);
    }
    for part in 0..contents.parts() {
        if contents.width(part) != widths[part as usize] {
            return Ok(false);
        }
    }
    Ok(true)
}

/// What the last of some calls is answered, from the opening on; None where one is not taken.
pub(crate) fn last_answer<T: TxType>(
    alloc: Global,
    ty: &T,
    calls: &[Call],
) -> Result<Option<Answer>, AllocError> {
    let mut contents = opening_of(alloc, ty)?;
    let mut last = None;
    for call in calls {
        last = ask(alloc, ty, call, &mut contents)?;
        if last.is_none() {
            return Ok(None);
        }
    }
    Ok(last)
}

/// Whether the last of some calls has this reply, these items and these updates.
pub(crate) fn is_answered<T: TxType>(
    alloc: Global,
    ty: &T,
    calls: &[Call],
    reply: &Reply,
    items: &[Item],
    updates: &[Entry],
) -> Result<bool, AllocError> {
    Ok(match last_answer(alloc, ty, calls)? {
        None => false,
        Some(answer) => {
            answer.reply == *reply
                && answer.items.as_slice() == items
                && are_updates(&answer.updates, updates)
        }
    })
}

fn are_updates(updates: &Updates, wanted: &[Entry]) -> bool {
    if updates.len() as usize != wanted.len() {
        return false;
    }
    for place in 0..updates.len() {
        let (part, update) = updates.get(place);
        let (wanted_part, changes) = wanted[place as usize];
        if *part != wanted_part || update.as_slice() != changes {
            return false;
        }
    }
    true
}

/// That a word of a part compares with a number.
pub(crate) const fn compares(part: u32, word: u32, test: Test, bound: i64) -> Item {
    Item::Holds(Pred {
        part,
        word,
        shift: 0,
        test,
        bound,
    })
}
