//! What the locks and tests of a commit have found.
ghost use Rattle.std.specs.Prelude.{◌≡◌, ◌+◌, ◌-◌, ◌^◌, ◌<◌, ◌≤◌, ℕ, [], ◌∷◌, ◌++◌, length, OnOk, IfSome};
ghost use Rattle.std.specs.List.Sorted.{IsNonDecreasingBy};
ghost use Rattle.sto_attempt_log.specs.CommitPhases.{ticket_from};
ghost use Rattle.sto_attempt_log.specs.Ordered.{RisesAfter};

use crate::commit_phase::FoundTicket;
use std::alloc::Global;
use std::marker::Model;
use sto_part::{List, NoMemory};

/// Tickets in the order in which they were found; the last one of a part counts.
///
/// A commit locks in rising order, and then it tests in rising order. So what its tests have found stands where
/// the parts rise up to the end, and is found by its part in logarithmic time.
#[derive(Drop)]
pub struct FoundTickets {
    list: List<FoundTicket>,
    // From here on the parts rise.
    start: u32,
}

impl Model for FoundTickets {
    ghost use Rattle.sto_part.specs.Listed.{Listed};
    ghost use Rattle.sto_attempt_log.specs.declared.commit_phase.FoundTicket.{FoundTicket};
    ghost use Rattle.sto_attempt_log.specs.Ordered.{RisesAfter};

    ghost Value = { Listed FoundTicket };

    ghost view = { λ f. f.list };

    ghost invariant = { λ f. RisesAfter f.start f.list.items };
}

impl FoundTickets {
    /// No ticket.
    pub fn new(alloc: Global) -> FoundTickets
        ensures { result ≡ record { items = []; spare = 0 } }
    {
        FoundTickets {
            list: List::new(alloc),
            start: 0,
        }
    }

    /// Takes all tickets away. Their room stays.
    pub fn clear(&mut self)
        ensures { self.new.items ≡ [] }
    {
        self.list.clear();
        self.start = 0;
    }

    /// Makes room for at least so many more.
    pub fn reserve(&mut self, more: u32) -> Result<(), NoMemory>
        ensures items { self.new.items ≡ self.old.items }
        ensures ok { OnOk result (more ≤ self.new.spare) }
    {
        self.list.reserve(more)
    }

    /// Adds one last, where there is room for it.
    pub fn push_spare(&mut self, found: FoundTicket)
        requires few { length self.old.items + 1 < 2 ^ 32 }
        requires room { 1 ≤ self.old.spare }
        ensures { self.new ≡ record { items = self.old.items ++ found ∷ []; spare = self.old.spare - 1 } }
    {
        self.start = start_with(self.list.as_slice(), self.start, &found);
        self.list.push_spare(found);
    }

    /// The last ticket that was found of a part, or 0.
    pub fn ticket(&self, part: u32) -> u64
        ensures { result ≡ ticket_from 0 self.now.items part }
    {
        let found_tickets = self.list.as_slice();
        match last_of(&found_tickets[self.start as usize..], part) {
            Some(ticket) => ticket,
            None => ticket_found(found_tickets, part),
        }
    }
}

// From where on the parts rise, with one more at the end.
fn start_with(found_tickets: &[FoundTicket], start: u32, next: &FoundTicket) -> u32
    requires few { length found_tickets.now < 2 ^ 32 }
    requires rises { RisesAfter start found_tickets.now }
    ensures { RisesAfter result (found_tickets.now ++ next.now ∷ []) }
{
    match found_tickets.last() {
        Some(last) => {
            if next.part < last.part {
                found_tickets.len() as u32
            } else {
                start
            }
        }
        None => start,
    }
}

// The last ticket of a part, where the parts rise.
fn last_of(found_tickets: &[FoundTicket], part: u32) -> Option<u64>
    requires { IsNonDecreasingBy (λ x. x.part) found_tickets.now }
    ensures { IfSome result (λ ticket. (t : ℕ) → ticket_from t found_tickets.now part ≡ ticket) }
{
    let end = found_tickets.partition_point(|found| found.part <= part);
    if end > 0 && found_tickets[end - 1].part == part {
        Some(found_tickets[end - 1].ticket)
    } else {
        None
    }
}

// The last ticket of a part, or 0.
fn ticket_found(found_tickets: &[FoundTicket], part: u32) -> u64
    ensures { result ≡ ticket_from 0 found_tickets.now part }
{
    let mut ticket = 0;
    for find in found_tickets {
        if find.part == part {
            ticket = find.ticket;
        }
    }
    ticket
}
