//! The words that threads share, and passes at rest.
ghost use Rattle.std.specs.Prelude.{◌≡◌, ◌<◌, ◌^◌, [], length, map, true};
ghost use Rattle.sto_core.specs.Allowed.{is_idle};
ghost use Rattle.sto_table.specs.Laid.{places_of, words_of};

use crate::law::{Key, Law};
use crate::stance::Stance;
use atomic_table::{Seat, Table};
use std::alloc::Global;
use std::marker::PhantomData;
use sto_part::{List, Naming};

/// The words, which threads share.
#[derive(Drop)]
pub struct Shared<T: Naming> {
    pub table: Table<(), Stance, Key<T>, Law<T>, Global>,
    // Where the version of each part stands, and how many words follow it.
    pub(crate) places: List<usize>,
    pub(crate) widths: List<u32>,
    pub(crate) passes: u32,
    ghost placed: { places.items ≡ places_of table.shared.key.passes table.shared.key.opening.value.items },
    ghost measured: { widths.items ≡ map length table.shared.key.opening.value.items },
    ghost counted: { passes ≡ table.shared.key.passes },
    ghost wide: { table.shared.table_id.words ≡ words_of table.shared.key.passes table.shared.key.opening.value.items },
    ghost few: { table.shared.table_id.words < 2 ^ 63 },
    ghost bare: { table.shared.table_id.slots ≡ 0 },
}

/// An idle pass, which borrows nothing.
#[derive(Drop)]
pub struct Rest<T: Naming> {
    pub seat: Seat<(), Stance>,
    pub number: u32,
    pub(crate) of: PhantomData<T>,
    ghost bare: { seat.me.1 ≡ [] },
    ghost live: { 0 < seat.me.0.view.gathered },
    ghost idle: { is_idle seat.me.0.view.phase ≡ true },
    ghost numbered: { seat.me.0.view.number ≡ number },
}
