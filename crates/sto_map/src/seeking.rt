//! A look along the way of a key.
ghost use Rattle.std.specs.Prelude.{◌≡◌, ◌<◌, ℕ, List as Seq, [], IfOk};
ghost use Rattle.sto_item.specs.declared.item.Item.{Item as TheItem};
ghost use Rattle.sto_type.specs.Known.{known};
ghost use Rattle.sto_type.specs.Telling.{Telling, plan_of};
ghost use Rattle.sto_map.specs.Mapped.{Sizes, holds as the_holds, look as the_look};
ghost use Rattle.sto_map.specs.Looked.{comes_to, IsBelow};

use crate::size::{Size, key_part, over_part};
use sto_container::{is_live, next};
use sto_item::{Item, Items};
use sto_part::NoMemory;
use sto_type::{AnswerPool, KnownParts, word_at};

/// What a look along the way of a key comes to, on what is known.
#[derive(Drop)]
pub(crate) enum Look {
    /// The key stands at this place.
    Found(u32),
    /// It stands nowhere, as these items show.
    Absent(Items),
    /// This part has to be known first.
    Need(u32),
}

// Whether a key part holds the key.
fn holds(key: i64, words: &[i64]) -> bool
    ensures { result ≡ the_holds key words.now }
{
    is_live(words) && word_at(words, 1) == key
}

/// Looks along the way of a key from its home on.
pub(crate) fn seek(
    pool: &mut AnswerPool,
    cache: &KnownParts<'_>,
    size: &Size,
    home: u32,
    key: i64,
) -> Result<Look, NoMemory>
    requires { home < size.now.places }
    ensures comes { IfOk result (λ l. (z : Sizes) → z.places ≡ size.now.places → z.stripes ≡ size.now.stripes → (f : ℕ → Telling) → (g : Seq TheItem → Telling)
        → plan_of (the_look z key f g z.places home []) (known cache.now) ≡ comes_to l f g (known cache.now)) }
    ensures below { IfOk result (IsBelow size.now.places) }
{
    let mut items = pool.items();
    let mut place = home;
    for _ in 0..size.places {
        let Some(words) = cache.get(key_part(size, place)) else {
            return Ok(Look::Need(key_part(size, place)));
        };
        if holds(key, words) {
            return Ok(Look::Found(place));
        }
        let Some(over) = cache.first_word(over_part(size, place)) else {
            return Ok(Look::Need(over_part(size, place)));
        };
        items.push(Item::Seen(key_part(size, place)))?;
        if over == 0 {
            items.push(Item::Seen(over_part(size, place)))?;
            return Ok(Look::Absent(items));
        }
        place = next(size.places, place);
    }
    Ok(Look::Absent(items))
}
