//! The sizes of a map, and its parts.
ghost use Rattle.std.specs.Prelude.{◌≡◌, ◌<◌, ◌+◌, ◌*◌, ◌^◌};
ghost use Rattle.sto_map.specs.Mapped.{Sizes, key_part as the_key_part, over_part as the_over_part, value_part as the_value_part};

/// How many places and stripes a map has.
#[derive(Clone, Copy)]
pub(crate) struct Size {
    pub(crate) places: u32,
    pub(crate) stripes: u32,
    ghost few: { stripes + 3 * places < 2 ^ 32 },
}

/// The part with the key of a place.
pub(crate) fn key_part(size: &Size, place: u32) -> u32
    requires { place < size.now.places }
    ensures { (z : Sizes) → z.places ≡ size.now.places → z.stripes ≡ size.now.stripes → result ≡ the_key_part z place }
{
    size.stripes + place
}

/// The part that counts the keys that passed over a place.
pub(crate) fn over_part(size: &Size, place: u32) -> u32
    requires { place < size.now.places }
    ensures { (z : Sizes) → z.places ≡ size.now.places → z.stripes ≡ size.now.stripes → result ≡ the_over_part z place }
{
    size.stripes + (size.places + place)
}

/// The part with the value of a place.
pub(crate) fn value_part(size: &Size, place: u32) -> u32
    requires { place < size.now.places }
    ensures { (z : Sizes) → z.places ≡ size.now.places → z.stripes ≡ size.now.stripes → result ≡ the_value_part z place }
{
    size.stripes + (size.places + (size.places + place))
}
