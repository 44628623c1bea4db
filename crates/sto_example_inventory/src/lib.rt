//! An inventory: two sellers sell from one stock, never what is not there, and two clerks count at the same time.
#![tactic(auto)]

ghost use Rattle.std.specs.Prelude.{Some, pos, IfOk};
ghost use Rattle.sto_example_inventory.specs.Stock.{sale, count, no_sale_text, IsDay};

use std::alloc::Global;
use std::convert::Infallible;
use std::fmt;
use std::thread::Threads;
use sto_library::{
    Action, CounterId, Done, Either, HashId, Schema, State, Stop, StoreError, Times,
    TransactionError, Tx, wrapping_sum,
};

/// Why nothing is sold.
#[derive(Clone, Copy, PartialEq, Eq, Debug)]
pub enum NoSale {
    /// So many pieces are not in stock.
    SoldOut,
    /// The book has no room for a further customer.
    BookFull,
}

impl fmt::Display for NoSale {
    ghost output = { λ why. Some (no_sale_text why) };

    fn fmt<W: fmt::Write>(&self, f: &mut fmt::Formatter<W>) -> fmt::Result {
        match self {
            NoSale::SoldOut => write!(f, "not enough is in stock"),
            NoSale::BookFull => write!(f, "the book is full"),
        }
    }
}

/// Takes pieces from the stock, where they are there, and notes them for a customer. It gives what that one has bought so far.
#[derive(Clone, Copy)]
struct Sale {
    stock: CounterId,
    book: HashId,
    customer: i64,
    pieces: i64,
}

impl Action for Sale {
    type Out = i64;

    type Reason = NoSale;

    ghost does = { λ s. sale s.stock s.book s.customer s.pieces };

    ghost most = { λ _. 3 };

    fn most(&self) -> u32 {
        3
    }

    fn run(&self, tx: &mut Tx<'_>) -> Result<i64, Stop<NoSale>> {
        if !self.stock.take(tx, self.pieces)? {
            return tx.cancel(NoSale::SoldOut);
        }
        let line = self.book.get(tx, self.customer)?;
        let bought = wrapping_sum(line.unwrap_or(0), self.pieces);
        if !self.book.put(tx, self.customer, bought)? {
            return tx.cancel(NoSale::BookFull);
        }
        Ok(bought)
    }
}

/// Gives what is in stock, and what both customers have bought.
#[derive(Clone, Copy)]
struct Count {
    stock: CounterId,
    book: HashId,
}

impl Action for Count {
    type Out = (i64, i64);

    type Reason = Infallible;

    ghost does = { λ c. count c.stock c.book (pos 1) (pos 2) };

    ghost most = { λ _. 3 };

    fn most(&self) -> u32 {
        3
    }

    fn run(&self, tx: &mut Tx<'_>) -> Result<(i64, i64), Stop<Infallible>> {
        let left = self.stock.get(tx)?;
        let x = self.book.get(tx, 1)?;
        let y = self.book.get(tx, 2)?;
        Ok((left, wrapping_sum(x.unwrap_or(0), y.unwrap_or(0))))
    }
}

/// What a seller's sale led to: what the customer has bought so far, or why nothing was sold.
pub type Sold = Result<Done<i64, NoSale>, TransactionError>;

/// What a clerk's count led to: what is in stock, and what was sold.
pub type Counted = Result<Done<(i64, i64), Infallible>, TransactionError>;

/// What the last transaction led to of somebody in the shop: a seller's sale, or a clerk's count.
pub type Told = Either<Sold, Counted>;

/// What all told, first the sellers and then the clerks, and what all objects hold at the end.
pub type Day = (Vec<Told>, State);

/// A day of the shop on so many threads, with 50 pieces in stock: two sellers want 60 each, 3 at a time. The stock is never below zero.
pub fn run_sales<R: Threads + Sync>(rt: &R, alloc: Global, threads: u32) -> Result<Day, StoreError>
    ensures { IfOk result (λ day. IsDay day.0.items day.1.items) }
{
    let mut schema = Schema::new(alloc);
    let stock = schema.counter(50)?;
    let book = schema.hash(4, 2)?;
    let mut store = schema.open(alloc, 4)?;
    let one = Sale {
        stock,
        book,
        customer: 1,
        pieces: 3,
    };
    let two = Sale { customer: 2, ..one };
    let clerk = Either::Right(Times(20, Count { stock, book }));
    let staff = [
        Either::Left(Times(20, one)),
        Either::Left(Times(20, two)),
        clerk,
        clerk,
    ];
    let told = store.run_tasks(rt, alloc, threads, &staff)?;
    Ok((told, store.close(alloc)?))
}
