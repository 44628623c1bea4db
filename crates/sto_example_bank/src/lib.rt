//! A bank: two tellers move money, and two auditors look at the same time whether all of it is there.
#![tactic(auto)]

ghost use Rattle.std.specs.Prelude.{Some, IfOk};
ghost use Rattle.sto_example_bank.specs.Accounts.{withdraw, deposit, transfer, no_transfer_text, IsDay};
ghost use Rattle.sto_action.specs.Progs.{Follows};

use std::alloc::Global;
use std::convert::Infallible;
use std::fmt;
use std::thread::Threads;
use sto_library::{
    Action, BoxId, Done, Either, Schema, Snapshot, SnapshotValues, State, Stop, StoreError, Times,
    TransactionError, Tx, wrapping_difference, wrapping_sum,
};

/// Why an amount is not moved.
#[derive(Clone, Copy, PartialEq, Eq, Debug)]
pub enum NoTransfer {
    /// The account has so much less than the amount.
    Lacks(i64),
}

impl fmt::Display for NoTransfer {
    ghost output = { λ why. Some (no_transfer_text why) };

    fn fmt<W: fmt::Write>(&self, f: &mut fmt::Formatter<W>) -> fmt::Result {
        match self {
            NoTransfer::Lacks(missing) => write!(f, "the account lacks {missing}"),
        }
    }
}

/// Takes an amount from an account, where it is there; it gives what was there.
fn withdraw(tx: &mut Tx<'_>, from: BoxId, amount: i64) -> Result<i64, Stop<NoTransfer>>
    ensures { Follows (withdraw from amount) tx.old tx.new result }
{
    let x = from.get(tx)?;
    if x < amount {
        return tx.cancel(NoTransfer::Lacks(wrapping_difference(amount, x)));
    }
    from.set(tx, wrapping_difference(x, amount))?;
    Ok(x)
}

/// Adds an amount to an account.
fn deposit<E>(tx: &mut Tx<'_>, to: BoxId, amount: i64) -> Result<(), Stop<E>>
    ensures { Follows (deposit to amount) tx.old tx.new result }
{
    let y = to.get(tx)?;
    to.set(tx, wrapping_sum(y, amount))
}

/// Takes an amount from one account, where it is there, and adds it to another. It gives what was there.
#[derive(Clone, Copy)]
struct Transfer {
    from: BoxId,
    to: BoxId,
    amount: i64,
}

impl Action for Transfer {
    type Out = i64;

    type Reason = NoTransfer;

    ghost does = { λ t. transfer t.from t.to t.amount };

    ghost most = { λ _. 4 };

    fn most(&self) -> u32 {
        4
    }

    #[tactic(auto, using(sto_action::proofs::Following::then_follows, sto_action::proofs::Following::stop_follows))]
    fn run(&self, tx: &mut Tx<'_>) -> Result<i64, Stop<NoTransfer>> {
        let x = withdraw(tx, self.from, self.amount)?;
        deposit(tx, self.to, self.amount)?;
        Ok(x)
    }
}

/// What a transfer led to: what was there, or why it was not made.
pub type Moved = Result<Done<i64, NoTransfer>, TransactionError>;

/// What an audit led to: what all accounts have at one time. It is never given up.
pub type Audited = Result<Done<SnapshotValues<3, 0>, Infallible>, TransactionError>;

/// What a clerk's last transaction led to: a teller's transfer, or an auditor's audit.
pub type Told = Either<Moved, Audited>;

/// What the clerks told, first the tellers and then the auditors, and the rows at the end.
pub type Day = (Vec<Told>, State);

/// A day of the bank on so many threads, with three accounts of 100 each. Each audit sees 300, and 300 is there at the
/// end. A transfer is not made only where its account lacks something.
pub fn run_bank<R: Threads + Sync>(rt: &R, alloc: Global, threads: u32) -> Result<Day, StoreError>
    ensures { IfOk result (λ day. IsDay day.0.items day.1.items) }
{
    let mut schema = Schema::new(alloc);
    let a = schema.boxed(100)?;
    let b = schema.boxed(100)?;
    let c = schema.boxed(100)?;
    let mut store = schema.open(alloc, 4)?;
    let one = Transfer {
        from: a,
        to: b,
        amount: 3,
    };
    let two = Transfer {
        from: b,
        to: c,
        amount: 2,
    };
    let audit = Snapshot {
        boxes: [a, b, c],
        counters: [],
    };
    let auditor = Either::Right(Times(20, audit));
    let clerks = [
        Either::Left(Times(20, one)),
        Either::Left(Times(20, two)),
        auditor,
        auditor,
    ];
    let told = store.run_tasks(rt, alloc, threads, &clerks)?;
    Ok((told, store.close(alloc)?))
}

/// What three accounts have together.
pub fn together(accounts: &[i64; 3]) -> i64 {
    wrapping_sum(wrapping_sum(accounts[0], accounts[1]), accounts[2])
}
