//! Draws of a linear congruential generator, and the transfers that they make.
ghost use Rattle.std.specs.Prelude.{◌≡◌, ◌<◌, ◌%◌, ◌≤◌, IfOk};
ghost use Rattle.sto_gen.specs.Draws.{next, draw, transfer_after, transfers_after};

use std::alloc::Global;
use sto_part::{List, NoMemory};

/// An amount to be moved from one account to another.
#[derive(Clone, Copy, PartialEq, Eq, Debug)]
pub struct Transfer {
    pub from: u8,
    pub to: u8,
    pub amount: u8,
}

/// The draws that a number begins.
#[derive(Drop)]
pub(crate) struct Draws {
    pub(crate) state: u64,
}

impl Draws {
    /// The next draw, below 2^31.
    fn draw(&mut self) -> u64
        ensures state { self.new.state ≡ next self.old.state }
        ensures draw { result ≡ draw self.new.state }
    {
        self.state = self
            .state
            .wrapping_mul(6_364_136_223_846_793_005)
            .wrapping_add(1_442_695_040_888_963_407);
        self.state >> 33
    }

    /// A number below another.
    fn pick(&mut self, below: u64) -> u64
        requires { 0 < below }
        ensures state { self.new.state ≡ next self.old.state }
        ensures pick { result ≡ draw self.new.state % below }
    {
        self.draw() % below
    }

    /// The transfer of the next three draws, between two of 64 accounts.
    pub(crate) fn transfer(&mut self) -> Transfer
        ensures state { self.new.state ≡ next (next (next self.old.state)) }
        ensures transfer { result ≡ transfer_after self.old.state }
        ensures accounts { (result.from < 64) × (result.to < 64) }
        ensures amount { result.amount ≤ 100 }
    {
        let from = self.pick(64);
        let to = (from + 1 + self.pick(63)) % 64;
        let amount = 1 + self.pick(100);
        Transfer {
            from: from as u8,
            to: to as u8,
            amount: amount as u8,
        }
    }
}

/// The transfers of the file that a number generates, one for each transaction: those of the first thread in the order of its
/// transactions, then those of the second, and so on.
pub fn transfers(alloc: Global, number: u64) -> Result<List<Transfer>, NoMemory>
    ensures { IfOk result (λ l. l.items ≡ transfers_after 3200 number) }
{
    let mut draws = Draws { state: number };
    let mut transfers = List::new(alloc);
    transfers.reserve(3200)?;
    for _ in 0..3200_u64 {
        transfers.push(draws.transfer())?;
    }
    Ok(transfers)
}
