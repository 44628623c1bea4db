//! What operations observe.
ghost use Rattle.std.specs.Prelude.{◌≡◌, ◌<◌, ◌≤◌, ◌^◌, ◌*◌, ◌+◌, [], ◌∷◌, length, IfOk};
ghost use Rattle.sto_item.specs.declared.item.Item.TheVariants.{Seen as SeenPart};
ghost use Rattle.sto_tree.specs.Layout.{parts_of, key_part as the_key_part, value_part as the_value_part};
ghost use Rattle.sto_tree.specs.Said.{compared, cover as the_cover, here as at_place};

use sto_item::{Item, Items};
use sto_part::{NoMemory, Pred, Test};
use sto_type::AnswerPool;

/// The key part of a leaf.
pub(crate) fn key_part(leaf: u32) -> u32
    requires { the_key_part leaf < 2 ^ 32 }
    ensures { result ≡ the_key_part leaf }
{
    2 + 9 * leaf
}

/// The part of a value.
pub(crate) fn value_part(leaf: u32, place: u32) -> u32
    requires { the_value_part leaf place < 2 ^ 32 }
    ensures { result ≡ the_value_part leaf place }
{
    3 + 9 * leaf + place
}

/// That a word compares with a number.
pub(crate) fn compares(part: u32, word: u32, test: Test, bound: i64) -> Item
    ensures { result ≡ compared part word test bound }
{
    Item::Holds(Pred {
        part,
        word,
        shift: 0,
        test,
        bound,
    })
}

/// These items, in their order.
pub(crate) fn items_of(pool: &mut AnswerPool, items: &[Item]) -> Result<Items, NoMemory>
    requires { length items.now < 2 ^ 32 }
    ensures { IfOk result (λ l. l.items ≡ items.now) }
{
    let mut made = pool.items();
    made.extend(items)?;
    Ok(made)
}

/// That a leaf has a key, and what its whole key part says.
pub(crate) fn leaf_items(pool: &mut AnswerPool, leaf: u32, key: i64) -> Result<Items, NoMemory>
    requires { the_key_part leaf < 2 ^ 32 }
    ensures { IfOk result (λ l. l.items ≡ the_cover leaf key key (SeenPart (the_key_part leaf) ∷ [])) }
{
    let items = [
        compares(1, 3 * leaf, Test::Eq, 1),
        compares(1, 3 * leaf + 1, Test::Le, key),
        compares(1, 3 * leaf + 2, Test::Ge, key),
        Item::Seen(key_part(leaf)),
    ];
    items_of(pool, &items)
}

/// That a leaf has a key, at a place, and what its value part says.
pub(crate) fn value_items(
    pool: &mut AnswerPool,
    leaf: u32,
    place: u32,
    key: i64,
) -> Result<Items, NoMemory>
    requires part { the_value_part leaf place < 2 ^ 32 }
    requires place { place < 8 }
    ensures { IfOk result (λ l. l.items ≡ the_cover leaf key key (at_place leaf place key (SeenPart (the_value_part leaf place) ∷ []))) }
{
    let items = [
        compares(1, 3 * leaf, Test::Eq, 1),
        compares(1, 3 * leaf + 1, Test::Le, key),
        compares(1, 3 * leaf + 2, Test::Ge, key),
        compares(key_part(leaf), 2 * place, Test::Eq, 1),
        compares(key_part(leaf), 2 * place + 1, Test::Eq, key),
        Item::Seen(value_part(leaf, place)),
    ];
    items_of(pool, &items)
}

/// That a leaf has a key, at a place.
pub(crate) fn here_items(
    pool: &mut AnswerPool,
    leaf: u32,
    place: u32,
    key: i64,
) -> Result<Items, NoMemory>
    requires part { the_key_part leaf < 2 ^ 32 }
    requires place { place < 8 }
    ensures { IfOk result (λ l. l.items ≡ the_cover leaf key key (at_place leaf place key [])) }
{
    let items = [
        compares(1, 3 * leaf, Test::Eq, 1),
        compares(1, 3 * leaf + 1, Test::Le, key),
        compares(1, 3 * leaf + 2, Test::Ge, key),
        compares(key_part(leaf), 2 * place, Test::Eq, 1),
        compares(key_part(leaf), 2 * place + 1, Test::Eq, key),
    ];
    items_of(pool, &items)
}
