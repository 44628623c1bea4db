//! The leaf of a key, in what is known.
ghost use Rattle.std.specs.Prelude.{◌≡◌, ◌<◌, ◌*◌, ◌^◌, ℤ, List, length, IfOk, IfErr};
ghost use Rattle.sto_type.specs.Known.{known, IsPartOf};
ghost use Rattle.sto_tree.specs.Layout.{parts_of};
ghost use Rattle.sto_tree.specs.Valid.{IsTree};
ghost use Rattle.sto_tree.specs.Found.{IsAtLeaf, NeedsFirst};

use crate::said::key_part;
use crate::search::leaf_of;
use sto_type::KnownParts;

/// The leaf of a key: the words of the directory, the leaf's number, and the words of its key part.
#[derive(Clone, Copy)]
pub(crate) struct Leaf<'a> {
    pub(crate) directory: &'a [i64],
    pub(crate) number: u32,
    pub(crate) keys: &'a [i64],
}

/// The leaf of a key; or the part that is needed before it can be told.
pub(crate) fn find_leaf<'c>(cache: &KnownParts<'c>, leaves: u32, key: i64) -> Result<Leaf<'c>, u32>
    requires few { parts_of leaves < 2 ^ 32 }
    requires part { (d : List (List ℤ)) × IsTree leaves d × IsPartOf (known cache.now) d }
    ensures at { IfOk result (λ l. IsAtLeaf leaves (known cache.now) key l.directory.now l.number l.keys.now) }
    ensures below { IfOk result (λ l. l.number < leaves) }
    ensures directory { IfOk result (λ l. length l.directory.now ≡ 3 * leaves) }
    ensures keys { IfOk result (λ l. length l.keys.now ≡ 16) }
    ensures needs { IfErr result (λ p. NeedsFirst leaves (known cache.now) key p) }
{
    let Some(directory) = cache.get(1) else {
        return Err(1);
    };
    let Some(number) = leaf_of(directory, leaves, key) else {
        unreachable!()
    };
    let Some(keys) = cache.get(key_part(number)) else {
        return Err(key_part(number));
    };
    Ok(Leaf {
        directory,
        number,
        keys,
    })
}
