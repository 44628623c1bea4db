//! A calendar: four guests book one room for three days at a time, and no two bookings overlap.
#![tactic(auto)]

ghost use Rattle.std.specs.Prelude.{pos, IfOk};
ghost use Rattle.sto_library.specs.Doings.{HasRunOnly};
ghost use Rattle.sto_example_calendar.specs.Bookings.{book, IsBooked};

use std::alloc::Global;
use std::thread::Threads;
use sto_library::{
    Action, Schema, State, Stop, StoreError, StoreWorker, Task, TreeId, Tx, TxType,
    wrapping_difference,
};

/// Why a booking is not made.
#[derive(Clone, Copy, PartialEq, Eq, Debug)]
pub enum NoBooking {
    /// Another booking has one of the days.
    Taken,
    /// The calendar has no room for a further booking.
    Full,
}

/// Books the room for three days from a day on, where all three are free. It gives that day.
#[derive(Clone, Copy)]
struct Booking {
    room: TreeId,
    day: u32,
    guest: u32,
}

impl Action for Booking {
    type Out = i64;

    type Reason = NoBooking;

    ghost does = { λ b. book b.room (pos b.day) (pos b.guest) };

    ghost most = { λ _. 2 };

    fn most(&self) -> u32 {
        2
    }

    fn run(&self, tx: &mut Tx<'_>) -> Result<i64, Stop<NoBooking>> {
        let day = i64::from(self.day);
        if self.room.count(tx, day - 2, day + 2)? != 0 {
            return tx.cancel(NoBooking::Taken);
        }
        if !self.room.put(tx, day, i64::from(self.guest))? {
            return tx.cancel(NoBooking::Full);
        }
        Ok(day)
    }
}

/// A guest, who asks for three days from each of 20 days on, one after the other.
#[derive(Clone, Copy)]
struct Guest {
    room: TreeId,
    guest: u32,
}

impl<T: TxType> Task<T> for Guest {
    type Out = ();

    ghost gives = { λ g before after _. HasRunOnly T.TxType before after 2 (λ day. book g.room (pos day) (pos g.guest)) };

    fn work(&self, worker: &mut StoreWorker<'_, T>) {
        let Guest { room, guest } = *self;
        for day in 0..20 {
            let _told = worker.run(&Booking { room, day, guest });
        }
    }
}

/// All bookings of four guests, on so many threads, of which no two overlap.
pub fn run_calendar<R: Threads + Sync>(
    rt: &R,
    alloc: Global,
    threads: u32,
) -> Result<State, StoreError>
    ensures { IfOk result (λ rows. IsBooked rows.items) }
{
    let mut schema = Schema::new(alloc);
    let room = schema.tree(16)?;
    let mut store = schema.open(alloc, 4)?;
    let guests = [
        Guest { room, guest: 1 },
        Guest { room, guest: 2 },
        Guest { room, guest: 3 },
        Guest { room, guest: 4 },
    ];
    let _told = store.run_tasks(rt, alloc, threads, &guests)?;
    Ok(store.close(alloc)?)
}

/// Whether each booking begins three days after the one before it, or later.
pub fn are_apart(rows: &State) -> bool {
    if rows.len() == 0 {
        return true;
    }
    let bookings = rows.get(0);
    for place in 1..bookings.len() {
        if wrapping_difference(bookings.get(place).0, bookings.get(place - 1).0) < 3 {
            return false;
        }
    }
    true
}
