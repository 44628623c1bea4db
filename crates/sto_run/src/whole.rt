//! What a run asks of the type of objects as a whole.
ghost use Rattle.std.specs.Prelude.{◌≡◌, map, IfOk};

use std::alloc::Global;
use sto_model::State;
use sto_part::{Contents, NoMemory};
use sto_type::{Home, TxType};

/// The contents that the objects open with, which are valid.
pub fn opening_of<T: TxType>(alloc: Global, ty: &T) -> Result<Contents, NoMemory>
    ensures opened { IfOk result (λ c. c.items ≡ (T.meaning ty.now).opened) }
    ensures valid { IfOk result (λ c. T.valid (T.sizes ty.now) c.items) }
{
    ty.opening(alloc)
}

/// The homes of all parts, in the order of the parts.
pub fn homes_of<T: TxType>(alloc: Global, ty: &T) -> Result<Vec<Home>, NoMemory>
    ensures { IfOk result (λ homes. map (λ h. (h.object, h.local)) homes.items ≡ (T.meaning ty.now).homes) }
{
    let mut homes = Vec::new(alloc);
    for part in 0..ty.parts() {
        if homes.push(ty.home(part)).is_err() {
            return Err(NoMemory);
        }
    }
    Ok(homes)
}

/// The rows that whole contents stand for, one list for each object.
pub fn rows_of<T: TxType>(alloc: Global, ty: &T, contents: &Contents) -> Result<State, NoMemory>
    requires { (T.meaning ty.now).valid contents.now.items }
    ensures { IfOk result (λ s. s.items ≡ (T.meaning ty.now).rows contents.now.items) }
{
    ty.rows_at(alloc, contents, 0)
}
