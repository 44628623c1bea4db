//! Parts that are seen one after the other.
ghost use Rattle.std.specs.Prelude.{◌≡◌, ◌++◌, ◌∷◌, [], None, IfOk, OnOk};
ghost use Rattle.sto_type.specs.Known.{known};
ghost use Rattle.sto_tree.specs.Between.{all_seen};
ghost use Rattle.sto_tree.specs.Walked.{first_unknown};

use sto_item::{Item, Items};
use sto_part::NoMemory;
use sto_type::KnownParts;

/// Adds an item last.
pub(crate) fn add_item(items: &mut Items, item: Item) -> Result<(), NoMemory>
    ensures { OnOk result (items.new.items ≡ items.old.items ++ item ∷ []) }
{
    if items.len() == u32::MAX {
        return Err(NoMemory);
    }
    items.push(item)?;
    Ok(())
}

/// Sees parts one after the other.
pub(crate) fn see_all(items: &mut Items, parts: &[u32]) -> Result<(), NoMemory>
    ensures { OnOk result (items.new.items ≡ items.old.items ++ all_seen parts.now) }
{
    for part in parts {
        add_item(items, Item::Seen(*part))?;
    }
    Ok(())
}

/// The first of parts that is not known.
pub(crate) fn unknown_in(cache: &KnownParts<'_>, parts: &[u32]) -> Option<u32>
    ensures { first_unknown (known cache.now) parts.now ≡ result }
{
    for part in parts {
        let Some(_words) = cache.get(*part) else {
            return Some(*part);
        };
    }
    None
}

/// Sees parts one after the other, and gives the first that is not known.
pub(crate) fn see_parts(
    items: &mut Items,
    cache: &KnownParts<'_>,
    parts: &[u32],
) -> Result<Option<u32>, NoMemory>
    ensures need { IfOk result (λ o. o ≡ first_unknown (known cache.now) parts.now) }
    ensures items { IfOk result (λ o. o ≡ None → items.new.items ≡ items.old.items ++ all_seen parts.now) }
{
    for part in parts {
        let Some(_words) = cache.get(*part) else {
            return Ok(Some(*part));
        };
        add_item(items, Item::Seen(*part))?;
    }
    Ok(None)
}
