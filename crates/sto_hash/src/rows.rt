//! The rows that the contents of a hash table stand for.
ghost use Rattle.std.specs.Prelude.{◌≡◌, ◌+◌, ◌*◌, ◌<◌, ◌^◌, ℕ, length, take, drop, IfOk, OnOk};
ghost use Rattle.sto_part.specs.Parts.{part_of};
ghost use Rattle.sto_hash.specs.Hashed.{block_pairs, pairs_from, rows_of, rows_onto, IsHash};

use std::alloc::Global;
use sto_block::place_at;
use sto_model::Rows;
use sto_part::{Contents, NoMemory};

/// The rows of the table whose parts begin with this one.
pub(crate) fn table_rows(
    alloc: Global,
    contents: &Contents,
    first: u32,
    buckets: u32,
    places: u32,
) -> Result<Rows, NoMemory>
    requires few { buckets * (1 + places) < 2 ^ 32 }
    requires valid { IsHash buckets places (take (buckets * (1 + places)) (drop first contents.now.items)) }
    ensures { IfOk result (λ r. r.items ≡ rows_of (pairs_from places (take (buckets * (1 + places)) (drop first contents.now.items)) 0
        buckets)) }
{
    let _parts = contents.parts();
    let mut rows = Rows::new(alloc);
    let mut bucket = buckets;
    while bucket > 0 {
        bucket -= 1;
        put_pairs(&mut rows, contents, first + bucket * (1 + places), places)?;
    }
    Ok(rows)
}

// Puts the pairs of the bucket with this key part, the last first.
fn put_pairs(rows: &mut Rows, contents: &Contents, part: u32, places: u32) -> Result<(), NoMemory>
    requires parts { part + places < length contents.now.items }
    requires keys { length (part_of contents.now.items part) ≡ 2 * places }
    requires values { (i : ℕ) → i < places → 0 < length (part_of contents.now.items (part + 1 + i)) }
    ensures { OnOk result (rows.new.items ≡ rows_onto (block_pairs contents.now.items part) rows.old.items) }
{
    let _parts = contents.parts();
    let keys = contents.get(part).as_slice();
    let mut place = places;
    while place > 0 {
        place -= 1;
        let (present, key) = place_at(keys, place);
        if present == 1 {
            rows.put(key, contents.word(part + 1 + place, 0))?;
        }
    }
    Ok(())
}
