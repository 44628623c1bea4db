//! The words of one thread, and what the passes over them know.
ghost use Rattle.std.specs.Prelude.{◌≡◌, ℕ, suc, pos, ◌^◌, ◌<◌, ◌≤◌, [], ◌∷◌, length, map, IfOk, IfErr};
ghost use Rattle.sto_core.specs.Event.{Start, Open, Word, Close, Lock, Test, Draw, Check, Decide, Put, Release, Unlock};
ghost use Rattle.sto_core.specs.Allowed.{Allowed, IsIdle};
ghost use Rattle.sto_core.specs.Closed.{closed_core, live_view, reopened_from, AreClosed};
ghost use Rattle.sto_core.specs.Core.{status_word};
ghost use Rattle.sto_core.specs.Lists.{Each};
ghost use Rattle.sto_core.specs.Opened.{opened_views, opened_core};
ghost use Rattle.sto_core.specs.Places.{LoadsClock, LoadsVersion};
ghost use Rattle.sto_core.specs.Reopened.{reopened_view};
ghost use Rattle.sto_plain.specs.Kept.{AreUpToDate};
ghost use Rattle.sto_plain.specs.Passes.{view_of, noted, Steps};

use std::alloc::Global;
use std::marker::{Brand, Model, PhantomData};
use sto_core::{Closed, CommitLists, EventName, Notebook, Noted, Versions};
use sto_part::{Contents, List, Naming, NoMemory};
use sto_version::{FREE0, Version};

/// Several passes in one thread, over words that they share.
#[derive(Drop)]
pub struct Plain<T: Naming> {
    clock: u64,
    statuses: List<u64>,
    versions: Versions,
    contents: Contents,
    book: Notebook,
    // The ticket that each pass drew last. It is no word of the core state.
    tickets: List<u64>,
    of: PhantomData<T>,
}

impl<T: Naming> Model for Plain<T> {
    ghost use Rattle.std.specs.Prelude.{◌≡◌, length};
    ghost use Rattle.sto_core.specs.Core.{Core};
    ghost use Rattle.sto_core.specs.Words.{core_shown};
    ghost use Rattle.sto_plain.specs.Kept.{Kept};

    ghost Value = { Core };

    ghost view = { λ p. core_shown p.clock p.statuses.items p.versions.items p.contents.items p.book };

    ghost invariant = { λ p. Kept T.valid p.tickets.items (core_shown p.clock p.statuses.items p.versions.items p.contents.items p.book)
        × (length p.versions.items ≡ length p.contents.items) };
}

// Writes down what an event makes of the view of its pass.
fn note_event<E: EventName>(book: &mut Notebook, pass: u32, found: u64, value: i64)
    ensures { book.new ≡ noted E.event book.old pass found value }
{
    note_views::<E, Brand>(book, pass, found, value);
}

fn note_views<E: EventName, N: Noted>(book: &mut Notebook, pass: u32, found: u64, value: i64)
    requires { N.views ≡ noted E.event book.old pass found value }
    ensures { book.new ≡ noted E.event book.old pass found value }
{
    book.note::<N>();
}

// What a decision stores.
fn status_of(ticket: u64, commit: bool) -> u64
    requires { ticket ≤ 2 ^ 56 }
    ensures { result ≡ status_word commit ticket }
{
    if commit { 2 * ticket + 1 } else { 2 * ticket }
}

// Writes down the views of passes over words that were just opened.
fn note_opening<T: Naming, N: Noted>(book: &mut Notebook, ty: &T, contents: &Contents, passes: u32)
    requires { N.views ≡ opened_views (T.sizes ty.now) contents.now.items 0 passes }
    ensures { book.new ≡ opened_views (T.sizes ty.now) contents.now.items 0 passes }
{
    book.note::<N>();
}

// Writes down the view of the one pass over words that are opened again.
fn note_reopening<N: Noted>(book: &mut Notebook)
    requires { N.views ≡ reopened_view (live_view book.old).sizes (live_view book.old).opening book.old ∷ [] }
    ensures { book.new ≡ reopened_view (live_view book.old).sizes (live_view book.old).opening book.old ∷ [] }
{
    book.note::<N>();
}

// The status words and the remembered tickets of one pass that has drawn none.
fn of_one_pass(alloc: Global) -> Result<(List<u64>, List<u64>), NoMemory>
    ensures { IfOk result (λ made. (made.0.items ≡ 0 ∷ []) × (made.1.items ≡ 0 ∷ [])) }
{
    let statuses = List::filled(alloc, 0, 1)?;
    let tickets = List::filled(alloc, 0, 1)?;
    Ok((statuses, tickets))
}

// The same contents in a list of its own.
fn copied(alloc: Global, contents: &Contents) -> Result<Contents, NoMemory>
    ensures { IfOk result (λ c. c.items ≡ contents.now.items) }
{
    let mut made = Contents::new(alloc, &[])?;
    for part in 0..contents.parts() {
        made.push(contents.get(part).copied()?)?;
    }
    Ok(made)
}

impl<T: Naming> Plain<T> {
    /// Opens words with these contents for so many idle passes: the clock is 0, and so is every ticket.
    /// Each pass may draw 2^40 tickets.
    pub fn open(
        alloc: Global,
        ty: &T,
        contents: &Contents,
        passes: u32,
    ) -> Result<Plain<T>, NoMemory>
        requires valid { T.valid (T.sizes ty.now) contents.now.items }
        requires passes { (1 ≤ passes) × (passes ≤ 65536) }
        ensures { IfOk result (λ p. p ≡ opened_core (T.sizes ty.now) contents.now.items passes) }
    {
        let own = copied(alloc, contents)?;
        let versions = Versions::filled(alloc, FREE0, contents.parts())?;
        let statuses = List::filled(alloc, 0, passes)?;
        let tickets = List::filled(alloc, 0, passes)?;
        let mut book = Notebook::new(alloc)?;
        note_opening::<T, Brand>(&mut book, ty, contents, passes);
        Ok(Plain {
            clock: 0,
            statuses,
            versions,
            contents: own,
            book,
            tickets,
            of: PhantomData,
        })
    }

    /// Gives up the passes, which are all idle. The words stay, and what all passes know, with the whole history.
    /// It takes no memory.
    pub fn close(self) -> Closed<T>
        requires { Each (λ v. IsIdle v.phase) self.views }
        ensures words { closed_core result self.statuses ≡ self }
        ensures closed { AreClosed T.valid result }
    {
        let Plain {
            clock,
            statuses: _,
            versions,
            contents,
            book,
            tickets: _,
            of: _,
        } = self;
        Closed::new(clock, versions, contents, book)
    }

    /// Goes on from closed words with one idle pass, which has what all closed passes knew.
    pub fn reopen(closed: Closed<T>) -> Result<Plain<T>, (Closed<T>, NoMemory)>
        ensures ok { IfOk result (λ p. p ≡ reopened_from closed) }
        ensures err { IfErr result (λ e. e.0 ≡ closed) }
    {
        let (clock, versions, contents, mut book) = closed.into_parts();
        match of_one_pass(versions.allocator()) {
            Ok((statuses, tickets)) => {
                note_reopening::<Brand>(&mut book);
                Ok(Plain {
                    clock,
                    statuses,
                    versions,
                    contents,
                    book,
                    tickets,
                    of: PhantomData,
                })
            }
            Err(NoMemory) => Err((Closed::new(clock, versions, contents, book), NoMemory)),
        }
    }

    /// The contents after all commits, where no pass holds a part.
    pub fn contents(&self) -> Result<Contents, NoMemory>
        requires { Each (λ v. v.held ≡ []) self.now.views }
        ensures words { IfOk result (λ c. c.items ≡ map (λ part. part.words) self.now.parts) }
        ensures commits { IfOk result (λ c. AreUpToDate T.valid self.now c.items) }
    {
        copied(self.tickets.allocator(), &self.contents)
    }

    // The load of the clock that begins an attempt, or renews the number that it reads as of.
    pub(crate) fn load_clock<E: EventName>(&mut self, pass: u32) -> u64
        requires event { LoadsClock E.event }
        requires inside { pass < length self.old.views }
        requires allowed { Allowed T.valid E.event (view_of self.old pass) }
        ensures { Steps T.valid E.event self.old pass result (pos 0) self.new }
    {
        let found = self.clock;
        note_event::<E>(&mut self.book, pass, found, 0);
        found
    }

    // The load of a version that begins or ends a read or a test, or looks whether the part is as it was.
    pub(crate) fn load_version<E: EventName>(&mut self, pass: u32, part: u32) -> Version
        requires event { LoadsVersion E.event part }
        requires inside { pass < length self.old.views }
        requires allowed { Allowed T.valid E.event (view_of self.old pass) }
        ensures { Steps T.valid E.event self.old pass result.0 (pos 0) self.new }
    {
        let found = *self.versions.get(part);
        note_event::<E>(&mut self.book, pass, found.0, 0);
        found
    }

    // The load of a content word.
    pub(crate) fn load_word<E: EventName>(&mut self, pass: u32, part: u32, word: u32) -> i64
        requires event { E.event ≡ Word part word }
        requires inside { pass < length self.old.views }
        requires allowed { Allowed T.valid E.event (view_of self.old pass) }
        ensures { Steps T.valid E.event self.old pass 0 result self.new }
    {
        let value = self.contents.word(part, word);
        note_event::<E>(&mut self.book, pass, 0, value);
        value
    }

    // The lock bit set, as by `fetch_or`.
    pub(crate) fn set_lock<E: EventName>(&mut self, pass: u32, part: u32) -> Version
        requires event { E.event ≡ Lock part }
        requires inside { pass < length self.old.views }
        requires allowed { Allowed T.valid E.event (view_of self.old pass) }
        ensures { Steps T.valid E.event self.old pass result.0 (pos 0) self.new }
    {
        let before = *self.versions.get(part);
        self.versions.set(part, before.locked());
        note_event::<E>(&mut self.book, pass, before.0, 0);
        before
    }

    // The clock raised by 1, as by `fetch_add`.
    pub(crate) fn raise_clock<E: EventName, L: CommitLists>(&mut self, pass: u32, lists: &L) -> u64
        requires event { E.event ≡ Draw (L.updates lists.now) (L.seen lists.now) (L.loaded lists.now) }
        requires inside { pass < length self.old.views }
        requires allowed { Allowed T.valid E.event (view_of self.old pass) }
        ensures ticket { result ≡ suc self.old.clock }
        ensures steps { Steps T.valid E.event self.old pass self.old.clock (pos 0) self.new }
    {
        let before = self.clock;
        let ticket = before + 1;
        self.clock = ticket;
        self.tickets.set(pass, ticket);
        note_event::<E>(&mut self.book, pass, before, 0);
        ticket
    }

    // The status word stored.
    pub(crate) fn store_status<E: EventName>(&mut self, pass: u32, commit: bool)
        requires event { E.event ≡ Decide commit }
        requires inside { pass < length self.old.views }
        requires allowed { Allowed T.valid E.event (view_of self.old pass) }
        ensures { Steps T.valid E.event self.old pass 0 (pos 0) self.new }
    {
        let ticket = *self.tickets.get(pass);
        self.statuses.set(pass, status_of(ticket, commit));
        note_event::<E>(&mut self.book, pass, 0, 0);
    }

    // A content word stored.
    pub(crate) fn store_word<E: EventName>(&mut self, pass: u32, part: u32, word: u32, value: i64)
        requires event { E.event ≡ Put part word value }
        requires inside { pass < length self.old.views }
        requires allowed { Allowed T.valid E.event (view_of self.old pass) }
        ensures { Steps T.valid E.event self.old pass 0 (pos 0) self.new }
    {
        self.contents.set_word(part, word, value);
        note_event::<E>(&mut self.book, pass, 0, 0);
    }

    // The version stored with the pass's ticket and a clear lock bit.
    pub(crate) fn store_version<E: EventName>(&mut self, pass: u32, part: u32)
        requires event { E.event ≡ Release part }
        requires inside { pass < length self.old.views }
        requires allowed { Allowed T.valid E.event (view_of self.old pass) }
        ensures { Steps T.valid E.event self.old pass 0 (pos 0) self.new }
    {
        let ticket = *self.tickets.get(pass);
        self.versions.set(part, Version::released(ticket));
        note_event::<E>(&mut self.book, pass, 0, 0);
    }

    // The lock bit cleared, as by `fetch_and`.
    pub(crate) fn clear_lock<E: EventName>(&mut self, pass: u32, part: u32)
        requires event { E.event ≡ Unlock part }
        requires inside { pass < length self.old.views }
        requires allowed { Allowed T.valid E.event (view_of self.old pass) }
        ensures { Steps T.valid E.event self.old pass 0 (pos 0) self.new }
    {
        let held = *self.versions.get(part);
        self.versions.set(part, Version::released(held.ticket()));
        note_event::<E>(&mut self.book, pass, 0, 0);
    }
}
