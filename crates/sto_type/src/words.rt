//! Words of parts, and rows that number them.
ghost use Rattle.std.specs.Prelude.{◌≡◌, ◌<◌, ◌+◌, ◌^◌, [], ◌∷◌, length, IfOk};
ghost use Rattle.sto_type.specs.Numbered.{numbered, index_of};
ghost use Rattle.sto_type.specs.Words.{word, compared, at_word};

use crate::pool::AnswerPool;
use std::alloc::Global;
use sto_item::Item;
use sto_model::{Pairs, Rows};
use sto_part::{Change, NoMemory, Pred, Test, Update};

/// The place of an index among so many; None where it is none of them.
pub fn index_in(len: u32, index: i64) -> Option<u32>
    ensures { result ≡ index_of len index }
{
    if 0 <= index && index < i64::from(len) {
        Some(index as u32)
    } else {
        None
    }
}

/// A word; 0 past the last.
pub fn word_at(words: &[i64], place: u32) -> i64
    ensures { result ≡ word words.now place }
{
    if (place as usize) < words.len() {
        words[place as usize]
    } else {
        0
    }
}

/// That a word compares with a number.
pub fn compares(part: u32, word: u32, test: Test, bound: i64) -> Item
    ensures { result ≡ compared part word test bound }
{
    Item::Holds(Pred {
        part,
        word,
        shift: 0,
        test,
        bound,
    })
}

/// The changes of so many words of which one changes.
pub fn one_change(
    pool: &mut AnswerPool,
    width: u32,
    place: u32,
    change: Change,
) -> Result<Update, NoMemory>
    requires { place < width }
    ensures { IfOk result (λ u. u.items ≡ at_word width place change) }
{
    let mut update = pool.unchanged(width)?;
    update.set_change(place, change);
    Ok(update)
}

/// Each word with its number as its key, as rows.
pub fn rows_of(alloc: Global, words: &[i64]) -> Result<Rows, NoMemory>
    requires { length words.now < 2 ^ 32 }
    ensures { IfOk result (λ r. r.items ≡ numbered 0 words.now) }
{
    let mut rows = Rows::new(alloc);
    for place in 0..words.len() as u32 {
        rows.push((i64::from(place), words[place as usize]))?;
    }
    Ok(rows)
}

/// The same as pairs.
pub fn pairs_of(alloc: Global, words: &[i64]) -> Result<Pairs, NoMemory>
    requires { length words.now < 2 ^ 32 }
    ensures { IfOk result (λ r. r.items ≡ numbered 0 words.now) }
{
    let rows = rows_of(alloc, words)?;
    let mut pairs = Pairs::new(alloc);
    pairs.extend(rows.as_slice())?;
    Ok(pairs)
}
