//! The contents with which a map begins.
ghost use Rattle.std.specs.Prelude.{◌≡◌, ℕ, ◌<◌, ◌+◌, ◌*◌, ◌^◌, ◌++◌, pos, length, replicate, OnOk, IfOk};
ghost use Rattle.sto_map.specs.Opening.{rooms_from};
ghost use Rattle.sto_map.specs.Sized.{room_of, opening_of};

use std::alloc::Global;
use sto_part::{Contents, NoMemory, PartWords};

// Adds so many parts of so many words, all 0.
fn add_zeros(alloc: Global, contents: &mut Contents, count: u32, width: u32) -> Result<(), NoMemory>
    requires { length contents.old.items + count < 2 ^ 32 }
    ensures items { OnOk result (contents.new.items ≡ contents.old.items ++ replicate count (replicate width (pos 0))) }
    ensures many { OnOk result (length contents.new.items ≡ length contents.old.items + count) }
{
    for _ in 0..count {
        contents.push(PartWords::filled(alloc, 0, width)?)?;
    }
    Ok(())
}

// The room of a stripe.
fn room_in(keys: u32, stripes: u32, stripe: u32) -> u32
    requires { 0 < stripes }
    ensures { result ≡ room_of keys stripes stripe }
{
    if stripe < keys % stripes {
        keys / stripes + 1
    } else {
        keys / stripes
    }
}

// The rooms of all stripes.
fn add_rooms(
    alloc: Global,
    contents: &mut Contents,
    keys: u32,
    stripes: u32,
) -> Result<(), NoMemory>
    requires some { 0 < stripes }
    requires few { length contents.old.items + stripes < 2 ^ 32 }
    ensures items { OnOk result (contents.new.items ≡ contents.old.items ++ rooms_from (room_of keys stripes) 0 stripes) }
    ensures many { OnOk result (length contents.new.items ≡ length contents.old.items + stripes) }
{
    for stripe in 0..stripes {
        let room = room_in(keys, stripes, stripe);
        contents.push(PartWords::filled(alloc, i64::from(room), 1)?)?;
    }
    Ok(())
}

/// The contents of a map without keys.
pub(crate) fn opened(
    alloc: Global,
    keys: u32,
    places: u32,
    stripes: u32,
) -> Result<Contents, NoMemory>
    requires some { 0 < stripes }
    requires few { stripes + 3 * places < 2 ^ 32 }
    ensures { IfOk result (λ c. (seed : ℕ) → c.items ≡ opening_of keys places stripes seed) }
{
    let mut contents = Contents::new(alloc, &[])?;
    add_rooms(alloc, &mut contents, keys, stripes)?;
    add_zeros(alloc, &mut contents, places, 2)?;
    add_zeros(alloc, &mut contents, places, 1)?;
    add_zeros(alloc, &mut contents, places, 1)?;
    Ok(contents)
}
