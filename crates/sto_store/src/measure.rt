//! The widths of all parts of a type, as a list.
ghost use Rattle.std.specs.Prelude.{◌≡◌, IfOk};

use std::alloc::Global;
use sto_part::{List, NoMemory};
use sto_type::TxType;

// How many words each part has, in order.
pub(crate) fn widths_of<T: TxType>(alloc: Global, ty: &T) -> Result<List<u32>, NoMemory>
    ensures { IfOk result (λ w. w.items ≡ (T.meaning ty.now).widths) }
{
    let mut widths = List::new(alloc);
    for part in 0..ty.parts() {
        widths.push(ty.width(part))?;
    }
    Ok(widths)
}
