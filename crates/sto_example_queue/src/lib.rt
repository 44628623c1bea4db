//! A queue: two producers send amounts down a line, and two consumers receive them at the same time. What is sent is received or waits.
#![tactic(auto)]

ghost use Rattle.std.specs.Prelude.{IfOk};
ghost use Rattle.sto_example_queue.specs.Line.{put, take, IsServed};

use std::alloc::Global;
use std::thread::Threads;
use sto_library::{
    Action, CounterId, Either, Schema, State, Stop, StoreError, Times, Tx, VectorId,
};

/// Why an amount is not put or taken.
#[derive(Clone, Copy, PartialEq, Eq, Debug)]
pub enum NoTurn {
    /// The line has no room.
    Full,
    /// Nothing waits in the line.
    Empty,
    /// No counter can count so much.
    TooMuch,
}

/// Puts an amount at the end of the line, where there is room, and notes it as sent. It gives the amount.
#[derive(Clone, Copy)]
struct Put {
    sent: CounterId,
    line: VectorId,
    amount: i64,
}

impl Action for Put {
    type Out = i64;

    type Reason = NoTurn;

    ghost does = { λ p. put p.sent p.line p.amount };

    ghost most = { λ _. 2 };

    fn most(&self) -> u32 {
        2
    }

    fn run(&self, tx: &mut Tx<'_>) -> Result<i64, Stop<NoTurn>> {
        if !self.line.push(tx, self.amount)? {
            return tx.cancel(NoTurn::Full);
        }
        if !self.sent.add(tx, self.amount)? {
            return tx.cancel(NoTurn::TooMuch);
        }
        Ok(self.amount)
    }
}

/// Takes the amount at the end of the line, and notes it as received. It gives the amount.
#[derive(Clone, Copy)]
struct Take {
    received: CounterId,
    line: VectorId,
}

impl Action for Take {
    type Out = i64;

    type Reason = NoTurn;

    ghost does = { λ t. take t.received t.line };

    ghost most = { λ _. 2 };

    fn most(&self) -> u32 {
        2
    }

    fn run(&self, tx: &mut Tx<'_>) -> Result<i64, Stop<NoTurn>> {
        let Some(amount) = self.line.pop(tx)? else {
            return tx.cancel(NoTurn::Empty);
        };
        if !self.received.add(tx, amount)? {
            return tx.cancel(NoTurn::TooMuch);
        }
        Ok(amount)
    }
}

/// A day of a line with room for 64 amounts, on so many threads. What was sent, in sum, was received or waits at the end.
pub fn run_line<R: Threads + Sync>(rt: &R, alloc: Global, threads: u32) -> Result<State, StoreError>
    ensures { IfOk result (λ rows. IsServed rows.items) }
{
    let mut schema = Schema::new(alloc);
    let sent = schema.counter(0)?;
    let received = schema.counter(0)?;
    let line = schema.vector(64)?;
    let mut store = schema.open(alloc, 4)?;
    let seven = Put {
        sent,
        line,
        amount: 7,
    };
    let five = Put { amount: 5, ..seven };
    let taker = Either::Right(Times(20, Take { received, line }));
    let tasks = [
        Either::Left(Times(20, seven)),
        Either::Left(Times(20, five)),
        taker,
        taker,
    ];
    let _told = store.run_tasks(rt, alloc, threads, &tasks)?;
    Ok(store.close(alloc)?)
}
