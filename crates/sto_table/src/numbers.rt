//! Claims that threads claim from one word.
ghost use Rattle.std.specs.Prelude.{◌≡◌, ◌≤◌, ◌<◌, ◌+◌, ◌^◌, ℕ, [], IfOk, IfSome, IfNone, All, length, true};
ghost use Rattle.sto_table.specs.Taken.{past, times, once_below, taken, left_after, HasClaimed, both};

use crate::taken::Taken;
use atomic_table::{Join, Play, Seat, Split, Table, TableRule};
use std::alloc::Global;
use sto_part::{List, NoMemory};

/// What the table is told when it is made.
#[derive(Drop)]
pub struct Most {
    /// How many numbers are to be claimed.
    pub count: u32,
    /// How many seats there are.
    pub seats: u32,
}

/// The rule of the word.
pub struct ClaimLaw;

impl TableRule<(), Taken, Most> for ClaimLaw {
    ghost use Rattle.sto_table.specs.Taken.{Shared, first};

    ghost holds = { λ k. Shared k.count k.seats };

    ghost first = { λ k. first k.seats };
}

/// The one step of a claimer.
pub struct Claiming;

impl Play<(), Taken> for Claiming {
    ghost use Rattle.sto_table.specs.Taken.{ClaimsPlay};

    ghost then = { λ s. ClaimsPlay };
}

/// A look at the word, which tells a claimer that it found no number twice.
pub struct Looking;

impl Play<(), Taken> for Looking {
    ghost use Rattle.sto_table.specs.Taken.{LooksPlay};

    ghost then = { λ s. LooksPlay };
}

impl Split<Taken> for Claiming {
    ghost use Rattle.sto_table.specs.Taken.{left_after, new_after};

    ghost left = { left_after };

    ghost right = { new_after };
}

impl Join<Taken> for Claiming {
    ghost use Rattle.sto_table.specs.Taken.{both, spent};

    ghost both = { both };

    ghost spent = { spent };
}

/// The word, which threads share.
#[derive(Drop)]
pub struct Claims {
    pub table: Table<(), Taken, Most, ClaimLaw, Global>,
    pub count: u32,
    ghost counted: { count ≡ table.shared.key.count },
    ghost wide: { table.shared.table_id.words ≡ 1 },
    ghost bare: { table.shared.table_id.slots ≡ 0 },
    ghost few: { (table.shared.key.count < 2 ^ 32) × (table.shared.key.seats < 2 ^ 32) },
}

/// One who claims numbers.
#[derive(Drop)]
pub struct Claimer {
    pub seat: Seat<(), Taken>,
    ghost bare: { seat.me.1 ≡ [] },
    ghost live: { 1 ≤ seat.me.0.seats },
}

/// Claimers of the same word.
pub type Claimers = List<Claimer>;

impl Claims {
    /// Claims the next number, by one fetch_add. It is none exactly where the number found is none of those to be
    /// claimed. It takes no memory and waits for nothing.
    pub fn claim(&self, claimer: &mut Claimer) -> Option<u32>
        requires of { claimer.old.seat.table_id ≡ self.now.table.shared.table_id }
        requires open { past self.now.table.shared.key.count claimer.old.seat.me.0.numbers ≡ 0 }
        ensures of { claimer.new.seat.table_id ≡ claimer.old.seat.table_id }
        ensures some { IfSome result (λ n. (n < self.now.table.shared.key.count)
            × HasClaimed claimer.old.seat.me.0 n claimer.new.seat.me.0) }
        ensures none { IfNone result ((n : ℕ) × (self.now.table.shared.key.count ≤ n)
            × HasClaimed claimer.old.seat.me.0 n claimer.new.seat.me.0) }
    {
        let found = self
            .table
            .shared
            .fetch_add::<Claiming>(&mut claimer.seat, 0, 1);
        if found < u64::from(self.count) {
            Some(found as u32)
        } else {
            None
        }
    }

    /// Joins another claimer to the first. The two had no number in common.
    pub fn gather(&self, first: Claimer, other: Claimer) -> Claimer
        requires of { (first.seat.table_id ≡ self.now.table.shared.table_id) × (other.seat.table_id ≡ self.now.table.shared.table_id) }
        ensures of { result.seat.table_id ≡ self.now.table.shared.table_id }
        ensures numbers { result.seat.me.0 ≡ both first.seat.me.0 other.seat.me.0 }
        ensures apart { (x : ℕ) → times x first.seat.me.0.numbers + times x other.seat.me.0.numbers ≤ 1 }
    {
        let Claimer { mut seat } = first;
        let Claimer { seat: joined } = other;
        self.table.shared.join_seat::<Claiming>(&mut seat, joined);
        self.table.shared.load::<Looking>(&mut seat, 0);
        Claimer { seat }
    }
}

/// The word, by a claimer that has gathered all others: what it found are the numbers below it, each once.
pub fn close_claims(claims: Claims, claimer: Claimer) -> u64
    requires of { claimer.seat.table_id ≡ claims.table.shared.table_id }
    requires all { claimer.seat.me.0.seats ≡ claims.table.shared.key.seats }
    ensures { (x : ℕ) → times x claimer.seat.me.0.numbers ≡ once_below x result }
{
    let Claims { table, count: _ } = claims;
    let Claimer { seat } = claimer;
    let words = table.close_with(seat);
    let found = words.word(0);
    words.free();
    found
}

/// The word that was just opened, and those who claim numbers from it.
pub struct OpenedClaims {
    /// The word, to be lent to threads.
    pub claims: Claims,
    /// The claimers, each with one seat.
    pub claimers: Claimers,
}

impl Claims {
    // Cuts one claimer off the seat that stands for those still to be cut off.
    fn cut(&self, seat: &mut Seat<(), Taken>) -> Seat<(), Taken>
        requires of { seat.old.table_id ≡ self.now.table.shared.table_id }
        requires several { (1 < seat.old.me.0.seats) × (seat.old.me.0.numbers ≡ []) }
        ensures rest { (seat.new.table_id ≡ seat.old.table_id) × (seat.new.me ≡ (left_after seat.old.me.0, seat.old.me.1)) }
        ensures claimer { (result.table_id ≡ seat.old.table_id) × (result.me ≡ (taken [] 1, [])) }
    {
        self.table.shared.split_seat::<Claiming>(seat)
    }
}

// Cuts the claimers off the one seat that stands for all.
fn share(
    alloc: Global,
    claims: &Claims,
    seat: Seat<(), Taken>,
    seats: u32,
) -> Result<Claimers, NoMemory>
    requires some { 1 ≤ seats }
    requires of { seat.table_id ≡ claims.now.table.shared.table_id }
    requires seat { seat.me ≡ (taken [] seats, []) }
    ensures many { IfOk result (λ r. length r.items ≡ seats) }
    ensures fresh { IfOk result (λ r. All (λ c. (c.seat.table_id ≡ claims.now.table.shared.table_id) × (c.seat.me.0 ≡ taken [] 1))
        r.items) }
{
    let mut seat = seat;
    let mut claimers = List::new(alloc);
    for number in (1..seats).rev() {
        let cut = claims.cut(&mut seat);
        match claimers.push(Claimer { seat: cut }) {
            Ok(()) => {}
            Err(_) => return Err(NoMemory),
        }
    }
    match claimers.push(Claimer { seat }) {
        Ok(()) => Ok(claimers),
        Err(_) => Err(NoMemory),
    }
}

/// Opens a word from which so many numbers are to be claimed, with so many claimers.
pub fn open_claims(alloc: Global, count: u32, seats: u32) -> Result<OpenedClaims, NoMemory>
    requires { 1 ≤ seats }
    ensures key { IfOk result (λ o. (o.claims.table.shared.key.count ≡ count) × (o.claims.table.shared.key.seats ≡ seats)) }
    ensures many { IfOk result (λ o. length o.claimers.items ≡ seats) }
    ensures fresh { IfOk result (λ o. All (λ c. (c.seat.table_id ≡ o.claims.table.shared.table_id) × (c.seat.me.0 ≡ taken [] 1))
        o.claimers.items) }
{
    let most = Most { count, seats };
    let (table, seat) = match Table::of_words(alloc, &[0], &most) {
        Ok(made) => made,
        Err(_) => return Err(NoMemory),
    };
    let claims = Claims { table, count };
    let claimers = share(alloc, &claims, seat, seats)?;
    Ok(OpenedClaims { claims, claimers })
}
