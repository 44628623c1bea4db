//! The rows of a map.
ghost use Rattle.std.specs.Prelude.{◌≡◌, ◌≤◌, ◌+◌, ◌*◌, drop, length, IfOk};
ghost use Rattle.sto_map.specs.Mapped.{Sizes, map_rows};

use crate::size::{Size, key_part, value_part};
use std::alloc::Global;
use sto_container::is_live;
use sto_model::Rows;
use sto_part::{Contents, NoMemory};
use sto_type::word_at;

/// The keys and values of the places of a map, of contents that begin at a part.
pub(crate) fn listed(
    alloc: Global,
    contents: &Contents,
    first: u32,
    size: &Size,
) -> Result<Rows, NoMemory>
    requires { first + (size.now.stripes + 3 * size.now.places) ≤ length contents.now.items }
    ensures { IfOk result (λ r. (z : Sizes) → z.places ≡ size.now.places → z.stripes ≡ size.now.stripes → r.items ≡ map_rows z (drop first contents.now.items)) }
{
    let _parts = contents.parts();
    let mut rows = Rows::new(alloc);
    for place in 0..size.places {
        let words = contents.get(first + key_part(size, place)).as_slice();
        if is_live(words) {
            let values = contents.get(first + value_part(size, place)).as_slice();
            rows.put(word_at(words, 1), word_at(values, 0))?;
        }
    }
    Ok(rows)
}
