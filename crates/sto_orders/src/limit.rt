//! How many nodes there may be.
ghost use Rattle.std.specs.Prelude.{◌≡◌};
ghost use Rattle.sto_lang.specs.Views.{threads_of};
ghost use Rattle.sto_orders.specs.Causes.{least_told};
ghost use Rattle.sto_orders.specs.declared.limit.OrdersError.TheVariants as refusals;

use sto_lang::Thread;
use sto_part::NoMemory;

/// Why not all orders were run.
#[derive(Clone, Copy, PartialEq, Eq, Debug)]
pub enum OrdersError {
    NoMemory,
    /// There are at least so many nodes, and that is more than there may be. 2^64 - 1 stands for more, too.
    AtLeast(u64),
    /// More nodes were found than there may be.
    TooMany,
}

impl From<NoMemory> for OrdersError {
    ghost from_gives = { λ _ e. e ≡ refusals.NoMemory };

    fn from(_why: NoMemory) -> OrdersError {
        OrdersError::NoMemory
    }
}

/// How many nodes there are at least: each thread may have done any number of its transactions, and these differ.
pub(crate) fn least_nodes(threads: &[Thread]) -> u64
    ensures { result ≡ least_told (threads_of threads.now) }
{
    let mut least: u64 = 1;
    for thread in threads {
        let stops = u64::from(thread.scripts.len()) + 1;
        least = least.saturating_mul(stops);
    }
    least
}
