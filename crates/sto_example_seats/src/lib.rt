//! A box office: two shows with a hall and a waiting list each, one till, and twelve guests. What is in the till is what the seats cost that are sold.
#![tactic(auto)]

ghost use Rattle.std.specs.Prelude.{pos, IfOk};
ghost use Rattle.sto_library.specs.Doings.{HasRunOnly};
ghost use Rattle.sto_example_seats.specs.Evening.{reserve, give_back, deed, IsPaid};

use std::alloc::Global;
use std::thread::Threads;
use sto_library::{
    Action, ArrayId, CounterId, Schema, State, Stop, StoreError, StoreWorker, Task, TreeId, Tx,
    TxType, value_of, wrapping_sum,
};

// What a seat of each show costs.
const OPERA: i64 = 90;

const PLAY: i64 = 25;

/// Why nothing is done about a seat.
#[derive(Clone, Copy, PartialEq, Eq, Debug)]
pub enum NoDeal {
    /// The hall has no such seat.
    NoSuchSeat,
    /// The seat is not the guest's.
    NotYours,
    /// The waiting list has no room.
    LineFull,
    /// The till cannot hold the sum, or has less than is paid back.
    TillStuck,
    /// Whoever waits is not on the list any more.
    Gone,
}

/// A show: its seats, each with the guest who has it or 0, those who wait, by their tickets, and what a seat costs.
#[derive(Clone, Copy)]
struct Show {
    hall: ArrayId,
    line: TreeId,
    price: i64,
}

/// Sells a seat to a guest, where it is free; else the guest waits. It tells whether the seat was sold.
#[derive(Clone, Copy)]
struct Reserve {
    till: CounterId,
    show: Show,
    seat: u32,
    guest: u32,
}

impl Action for Reserve {
    type Out = bool;

    type Reason = NoDeal;

    ghost does = { λ r. reserve r.till r.show.hall r.show.line r.show.price (pos r.seat) (pos r.guest) };

    ghost most = { λ _. 5 };

    fn most(&self) -> u32 {
        5
    }

    fn run(&self, tx: &mut Tx<'_>) -> Result<bool, Stop<NoDeal>> {
        let Reserve { till, show, .. } = *self;
        let seat = i64::from(self.seat);
        let guest = i64::from(self.guest);
        let Some(owner) = show.hall.get(tx, seat)? else {
            return tx.cancel(NoDeal::NoSuchSeat);
        };
        if owner != 0 {
            if !show.line.put(tx, 100 * guest + seat, guest)? {
                return tx.cancel(NoDeal::LineFull);
            }
            return Ok(false);
        }
        if !show.hall.set(tx, seat, guest)? {
            return tx.cancel(NoDeal::NoSuchSeat);
        }
        if !till.add(tx, show.price)? {
            return tx.cancel(NoDeal::TillStuck);
        }
        Ok(true)
    }
}

/// Gives a seat back, where the guest has it: the first who waits gets and pays it, and else it is free. It tells whether one got it.
#[derive(Clone, Copy)]
struct GiveBack {
    till: CounterId,
    show: Show,
    seat: u32,
    guest: u32,
}

impl Action for GiveBack {
    type Out = bool;

    type Reason = NoDeal;

    ghost does = { λ g. give_back g.till g.show.hall g.show.line g.show.price (pos g.seat) (pos g.guest) };

    ghost most = { λ _. 5 };

    fn most(&self) -> u32 {
        5
    }

    fn run(&self, tx: &mut Tx<'_>) -> Result<bool, Stop<NoDeal>> {
        let GiveBack { till, show, .. } = *self;
        let seat = i64::from(self.seat);
        let Some(owner) = show.hall.get(tx, seat)? else {
            return tx.cancel(NoDeal::NoSuchSeat);
        };
        if owner != i64::from(self.guest) {
            return tx.cancel(NoDeal::NotYours);
        }
        let Some(ticket) = show.line.next(tx, 0)? else {
            if !show.hall.set(tx, seat, 0)? {
                return tx.cancel(NoDeal::NoSuchSeat);
            }
            if !till.take(tx, show.price)? {
                return tx.cancel(NoDeal::TillStuck);
            }
            return Ok(false);
        };
        let Some(next) = show.line.get(tx, ticket)? else {
            return tx.cancel(NoDeal::Gone);
        };
        if !show.line.remove(tx, ticket)? {
            return tx.cancel(NoDeal::Gone);
        }
        if !show.hall.set(tx, seat, next)? {
            return tx.cancel(NoDeal::NoSuchSeat);
        }
        Ok(true)
    }
}

/// A guest who wants each seat of a show, one after the other, and gives some back.
#[derive(Clone, Copy)]
struct Guest {
    till: CounterId,
    show: Show,
    guest: u32,
}

impl<T: TxType> Task<T> for Guest {
    type Out = ();

    ghost gives = { λ g before after _. HasRunOnly T.TxType before after 5 (deed g.till g.show.hall g.show.line g.show.price (pos g.guest)) };

    fn work(&self, worker: &mut StoreWorker<'_, T>) {
        let Guest { till, show, guest } = *self;
        for seat in 0..12 {
            let _sold = worker.run(&Reserve {
                till,
                show,
                seat,
                guest,
            });
            let _back = worker.run(&GiveBack {
                till,
                show,
                seat: seat / 3,
                guest,
            });
        }
    }
}

/// An evening of two shows with twelve seats each, and six guests each, on so many threads. What is in the till is what the seats cost
/// that are sold.
pub fn run_evening<R: Threads + Sync>(
    rt: &R,
    alloc: Global,
    threads: u32,
) -> Result<State, StoreError>
    ensures { IfOk result (λ rows. IsPaid rows.items) }
{
    let mut schema = Schema::new(alloc);
    let till = schema.counter(0)?;
    let first = schema.array(12, 0)?;
    let other = schema.array(12, 0)?;
    let first_line = schema.tree(32)?;
    let other_line = schema.tree(32)?;
    let mut store = schema.open(alloc, 12)?;
    let opera = Show {
        hall: first,
        line: first_line,
        price: OPERA,
    };
    let play = Show {
        hall: other,
        line: other_line,
        price: PLAY,
    };
    let one = Guest {
        till,
        show: opera,
        guest: 1,
    };
    let seven = Guest {
        till,
        show: play,
        guest: 7,
    };
    let guests = [
        one,
        Guest { guest: 2, ..one },
        Guest { guest: 3, ..one },
        Guest { guest: 4, ..one },
        Guest { guest: 5, ..one },
        Guest { guest: 6, ..one },
        seven,
        Guest { guest: 8, ..seven },
        Guest { guest: 9, ..seven },
        Guest { guest: 10, ..seven },
        Guest { guest: 11, ..seven },
        Guest { guest: 12, ..seven },
    ];
    let _told = store.run_tasks(rt, alloc, threads, &guests)?;
    Ok(store.close(alloc)?)
}

/// Whether what is in the till is what the seats cost that are sold.
pub fn is_paid(rows: &State) -> bool {
    let cost = wrapping_sum(cost_of_sold(rows, 1, OPERA), cost_of_sold(rows, 2, PLAY));
    value_of(rows, 0) == Some(cost)
}

// What the seats of the hall of this number cost that are sold.
fn cost_of_sold(rows: &State, hall: u32, price: i64) -> i64 {
    if hall >= rows.len() {
        return 0;
    }
    let seats = rows.get(hall);
    let mut cost = 0;
    for place in 0..seats.len() {
        if seats.get(place).1 != 0 {
            cost = wrapping_sum(cost, price);
        }
    }
    cost
}
