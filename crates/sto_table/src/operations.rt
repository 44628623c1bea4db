//! One atomic step for each kind of operation on a word.
ghost use Rattle.std.specs.Prelude.{◌≡◌, ◌+◌, ◌<◌, ◌≤◌, ◌^◌, ◌*◌, suc, length};
ghost use Rattle.sto_part.specs.Parts.{part_of};
ghost use Rattle.sto_core.specs.Event.{Word, Lock, Draw, Decide, Put, Release, Unlock};
ghost use Rattle.sto_core.specs.Allowed.{Allowed, HasPart, HasWord};
ghost use Rattle.sto_core.specs.Places.{LoadsClock, LoadsVersion};
ghost use Rattle.sto_core.specs.Views.{own_ticket};
ghost use Rattle.sto_table.specs.Fits.{FitsIn};
ghost use Rattle.sto_table.specs.Laid.{place_of, words_of};
ghost use Rattle.sto_table.specs.Steps.{Plays};

use crate::law::{Steps, Telling};
use crate::shared::Shared;
use crate::stance::Stance;
use atomic_table::Seat;
use sto_core::CommitLists;
use sto_part::Naming;

impl<T: Naming> Shared<T> {
    // Where the version of the part stands.
    fn version_place(&self, part: u32) -> usize
        requires { part < length self.now.table.shared.key.opening.value.items }
        ensures is { result ≡ place_of self.now.table.shared.key.passes self.now.table.shared.key.opening.value.items part }
        ensures within { result < self.now.table.shared.table_id.words }
    {
        *self.places.get(part)
    }

    // Where the word of the part stands.
    fn word_place(&self, part: u32, word: u32) -> usize
        requires { (part < length self.now.table.shared.key.opening.value.items)
            × (word < length (part_of self.now.table.shared.key.opening.value.items part)) }
        ensures is { result ≡ place_of self.now.table.shared.key.passes self.now.table.shared.key.opening.value.items part + suc word }
        ensures within { result < self.now.table.shared.table_id.words }
    {
        *self.places.get(part) + (1 + word as usize)
    }

    // Loads the clock.
    pub(crate) fn load_clock<J: Telling>(&self, seat: &mut Seat<(), Stance>) -> u64
        requires fits { FitsIn self.now.table.shared.table_id self.now.table.shared.key.opening.value.items seat.old }
        requires passes { J.passes ≡ self.now.table.shared.key.passes }
        requires event { LoadsClock J.event }
        requires allowed { Allowed T.valid J.event seat.old.me.0.view }
        ensures table { seat.new.table_id ≡ seat.old.table_id }
        ensures tells { Plays T.valid J.passes J.event seat.old.me result seat.new.me }
    {
        self.table.shared.load::<Steps<T, J>>(seat, 0)
    }

    // Loads a version.
    pub(crate) fn load_version<J: Telling>(&self, seat: &mut Seat<(), Stance>, part: u32) -> u64
        requires fits { FitsIn self.now.table.shared.table_id self.now.table.shared.key.opening.value.items seat.old }
        requires passes { J.passes ≡ self.now.table.shared.key.passes }
        requires event { LoadsVersion J.event part }
        requires allowed { Allowed T.valid J.event seat.old.me.0.view }
        ensures table { seat.new.table_id ≡ seat.old.table_id }
        ensures tells { Plays T.valid J.passes J.event seat.old.me result seat.new.me }
    {
        let place = self.version_place(part);
        self.table.shared.load::<Steps<T, J>>(seat, place)
    }

    // Loads a content word.
    pub(crate) fn load_word<J: Telling>(
        &self,
        seat: &mut Seat<(), Stance>,
        part: u32,
        word: u32,
    ) -> u64
        requires fits { FitsIn self.now.table.shared.table_id self.now.table.shared.key.opening.value.items seat.old }
        requires passes { J.passes ≡ self.now.table.shared.key.passes }
        requires event { J.event ≡ Word part word }
        requires allowed { Allowed T.valid J.event seat.old.me.0.view }
        ensures table { seat.new.table_id ≡ seat.old.table_id }
        ensures tells { Plays T.valid J.passes J.event seat.old.me result seat.new.me }
    {
        let place = self.word_place(part, word);
        self.table.shared.load::<Steps<T, J>>(seat, place)
    }

    // Sets a lock bit.
    pub(crate) fn set_lock<J: Telling>(&self, seat: &mut Seat<(), Stance>, part: u32) -> u64
        requires fits { FitsIn self.now.table.shared.table_id self.now.table.shared.key.opening.value.items seat.old }
        requires passes { J.passes ≡ self.now.table.shared.key.passes }
        requires event { J.event ≡ Lock part }
        requires allowed { Allowed T.valid J.event seat.old.me.0.view }
        ensures table { seat.new.table_id ≡ seat.old.table_id }
        ensures tells { Plays T.valid J.passes J.event seat.old.me result seat.new.me }
    {
        let place = self.version_place(part);
        self.table.shared.fetch_or::<Steps<T, J>>(seat, place, 1)
    }

    // Raises the clock, and gives the clock before.
    pub(crate) fn raise_clock<J: Telling, L: CommitLists>(
        &self,
        seat: &mut Seat<(), Stance>,
        lists: &L,
    ) -> u64
        requires fits { FitsIn self.now.table.shared.table_id self.now.table.shared.key.opening.value.items seat.old }
        requires passes { J.passes ≡ self.now.table.shared.key.passes }
        requires event { J.event ≡ Draw (L.updates lists.now) (L.seen lists.now) (L.loaded lists.now) }
        requires allowed { Allowed T.valid J.event seat.old.me.0.view }
        ensures table { seat.new.table_id ≡ seat.old.table_id }
        ensures tells { Plays T.valid J.passes J.event seat.old.me result seat.new.me }
    {
        self.table.shared.fetch_add::<Steps<T, J>>(seat, 0, 1)
    }

    // Stores a status word.
    pub(crate) fn store_status<J: Telling>(
        &self,
        seat: &mut Seat<(), Stance>,
        number: u32,
        ticket: u64,
        commit: bool,
    )
        requires fits { FitsIn self.now.table.shared.table_id self.now.table.shared.key.opening.value.items seat.old }
        requires passes { J.passes ≡ self.now.table.shared.key.passes }
        requires event { J.event ≡ Decide commit }
        requires allowed { Allowed T.valid J.event seat.old.me.0.view }
        requires number { (seat.old.me.0.view.number ≡ number) × (number < self.now.table.shared.key.passes) }
        requires ticket { (own_ticket seat.old.me.0.view.phase ≡ ticket) × (ticket ≤ 2 ^ 56) }
        ensures table { seat.new.table_id ≡ seat.old.table_id }
        ensures tells { Plays T.valid J.passes J.event seat.old.me 0 seat.new.me }
    {
        let word = if commit { 2 * ticket + 1 } else { 2 * ticket };
        self.table
            .shared
            .store::<Steps<T, J>>(seat, 1 + number as usize, word);
    }

    // Stores a content word.
    pub(crate) fn store_word<J: Telling>(
        &self,
        seat: &mut Seat<(), Stance>,
        part: u32,
        word: u32,
        value: i64,
    )
        requires fits { FitsIn self.now.table.shared.table_id self.now.table.shared.key.opening.value.items seat.old }
        requires passes { J.passes ≡ self.now.table.shared.key.passes }
        requires event { J.event ≡ Put part word value }
        requires allowed { Allowed T.valid J.event seat.old.me.0.view }
        ensures table { seat.new.table_id ≡ seat.old.table_id }
        ensures tells { Plays T.valid J.passes J.event seat.old.me 0 seat.new.me }
    {
        let place = self.word_place(part, word);
        self.table
            .shared
            .store::<Steps<T, J>>(seat, place, value.cast_unsigned());
    }

    // Stores a version with a clear lock bit.
    pub(crate) fn store_version<J: Telling>(
        &self,
        seat: &mut Seat<(), Stance>,
        part: u32,
        ticket: u64,
    )
        requires fits { FitsIn self.now.table.shared.table_id self.now.table.shared.key.opening.value.items seat.old }
        requires passes { J.passes ≡ self.now.table.shared.key.passes }
        requires event { J.event ≡ Release part }
        requires allowed { Allowed T.valid J.event seat.old.me.0.view }
        requires ticket { (own_ticket seat.old.me.0.view.phase ≡ ticket) × (ticket ≤ 2 ^ 56) }
        ensures table { seat.new.table_id ≡ seat.old.table_id }
        ensures tells { Plays T.valid J.passes J.event seat.old.me 0 seat.new.me }
    {
        let place = self.version_place(part);
        self.table
            .shared
            .store::<Steps<T, J>>(seat, place, 2 * ticket);
    }

    // Clears a lock bit.
    pub(crate) fn clear_lock<J: Telling>(&self, seat: &mut Seat<(), Stance>, part: u32)
        requires fits { FitsIn self.now.table.shared.table_id self.now.table.shared.key.opening.value.items seat.old }
        requires passes { J.passes ≡ self.now.table.shared.key.passes }
        requires event { J.event ≡ Unlock part }
        requires allowed { Allowed T.valid J.event seat.old.me.0.view }
        ensures table { seat.new.table_id ≡ seat.old.table_id }
        ensures tells { Plays T.valid J.passes J.event seat.old.me 0 seat.new.me }
    {
        let place = self.version_place(part);
        self.table
            .shared
            .fetch_and::<Steps<T, J>>(seat, place, 0xffff_ffff_ffff_fffe);
    }
}
