//! A transaction of the generated file, by its numbers.
ghost use Rattle.std.specs.Prelude.{◌≡◌, ◌<◌, ◌≤◌, ◌==◌, ◌%◌, [], pos, if◌then◌else◌};
ghost use Rattle.sto_part.specs.Preds.{compares};
ghost use Rattle.sto_part.specs.declared.pred.Test.TheVariants.{Ge};
ghost use Rattle.sto_model.specs.Calls.{call_of};
ghost use Rattle.sto_model.specs.declared.call.Call.{Call};
ghost use Rattle.sto_script.specs.Meaning.{Values, meaning_of, doing, committing};
ghost use Rattle.sto_script.specs.Asks.{Asks};
ghost use Rattle.sto_gen.specs.Generated.{transaction, owner_note};
ghost use Rattle.sto_bench.specs.Stages.{notes};
ghost use Rattle.sto_bench.specs.declared.body.TransferStage.TheVariants.{Out, Log, Owner, End};

use sto_gen::{ACCT, DONE, LOG, OWNER, Transfer};
use sto_model::{Body, Call, Next, Operation, Reply};
use sto_part::{Test, compare};
use sto_script::taken;

/// How far a transaction is.
#[derive(Clone, Copy, PartialEq, Eq)]
pub(crate) enum TransferStage {
    /// The balance is asked for.
    Balance,
    /// The amount is taken out of the one account.
    Out,
    /// It is put into the other.
    In,
    /// The transfer is counted.
    Count,
    /// The log is next, and the owners follow.
    Log,
    /// The owners are next.
    Owner,
    End,
}

/// A transaction of the generated file as a body. It holds the numbers of the transaction, and none of its text.
#[derive(Drop)]
pub struct GeneratedBody {
    thread: u32,
    position: u32,
    transfer: Transfer,
    stage: TransferStage,
    /// What the variable holds.
    balance: i64,
    ghost within: { (thread < 16) × (position ≤ 200) },
}

impl GeneratedBody {
    ghost use Rattle.sto_bench.specs.Bodies.{script_of, then_of, left_of, left_at_reset_of, MayAskOf};

    /// The transaction with this position in its thread, from 1, and this transfer, at its beginning.
    pub fn new(thread: u32, position: u32, transfer: Transfer) -> GeneratedBody
        requires { (thread < 16) × (position ≤ 200) }
        ensures script { script_of result ≡ meaning_of (transaction thread position transfer) }
        ensures may { (call : Call) → MayAskOf result call → Asks (transaction thread position transfer).body call }
    {
        GeneratedBody {
            thread,
            position,
            transfer,
            stage: TransferStage::Balance,
            balance: 0,
        }
    }

    /// The stage after the balance was heard.
    fn after_balance(&self) -> TransferStage
        ensures { result ≡ (if compares Ge self.now.balance (pos self.now.transfer.amount) then Out else Log) }
    {
        if compare(Test::Ge, self.balance, i64::from(self.transfer.amount)) {
            TransferStage::Out
        } else {
            TransferStage::Log
        }
    }

    /// The stage after a note.
    fn after_note(&self) -> TransferStage
        ensures { result ≡ (if self.now.position % 20 == 0 then Owner else End) }
    {
        if self.position % 20 == 0 {
            TransferStage::Owner
        } else {
            TransferStage::End
        }
    }

    /// What is done next where the log is.
    fn next_note(&self) -> Next
        ensures { (values : Values) → result
            ≡ doing (notes self.now.thread self.now.position self.now.transfer) committing values [] }
    {
        if self.position % 20 == 0 {
            let key = 1000 * i64::from(self.thread) + i64::from(self.position);
            let amount = i64::from(self.transfer.amount);
            return Next::Ask(Call::new(LOG, Operation::Put, key, amount));
        }
        self.next_owner()
    }

    /// What is done next where the owners are.
    fn next_owner(&self) -> Next
        ensures { (values : Values) → result ≡ doing (owner_note self.now.thread self.now.position) committing values [] }
    {
        if self.position % 25 == 0 {
            let key = 8 * i64::from(self.thread) + i64::from(self.position / 25);
            return Next::Ask(Call::new(OWNER, Operation::Put, key, i64::from(self.thread)));
        }
        Next::Commit
    }

    /// Asks for a sum on an account.
    fn add(account: u8, sum: i64) -> Next
        ensures { result ≡ Next.Ask (call_of 1 Operation.Add (pos account) sum) }
    {
        Next::Ask(Call::new(ACCT, Operation::Add, i64::from(account), sum))
    }
}

impl Body for GeneratedBody {
    ghost use Rattle.sto_bench.specs.Bodies.{script_of, then_of, left_of, left_at_reset_of, MayAskOf};

    ghost then = { then_of };

    ghost script = { script_of };

    ghost left = { left_of };

    ghost left_at_reset = { left_at_reset_of };

    ghost may_ask = { MayAskOf };

    fn reset(&mut self) {
        self.stage = TransferStage::Balance;
        self.balance = 0;
    }

    fn next(&self) -> Next {
        let Transfer { from, to, amount } = self.transfer;
        match self.stage {
            TransferStage::Balance => {
                Next::Ask(Call::new(ACCT, Operation::Get, i64::from(from), 0))
            }
            TransferStage::Out => GeneratedBody::add(from, -i64::from(amount)),
            TransferStage::In => GeneratedBody::add(to, i64::from(amount)),
            TransferStage::Count => Next::Ask(Call::new(DONE, Operation::Add, 1, 0)),
            TransferStage::Log => self.next_note(),
            TransferStage::Owner => self.next_owner(),
            TransferStage::End => Next::Commit,
        }
    }

    fn hear(&mut self, reply: &Reply) {
        match self.stage {
            TransferStage::Balance => {
                self.balance = taken(reply);
                self.stage = self.after_balance();
            }
            TransferStage::Out => self.stage = TransferStage::In,
            TransferStage::In => self.stage = TransferStage::Count,
            TransferStage::Count => self.stage = TransferStage::Log,
            TransferStage::Log => self.stage = self.after_note(),
            TransferStage::Owner => self.stage = TransferStage::End,
            TransferStage::End => {}
        }
    }

    fn left(&self) -> u32 {
        match self.stage {
            TransferStage::Balance => 6,
            TransferStage::Out => 5,
            TransferStage::In => 4,
            TransferStage::Count => 3,
            TransferStage::Log => 2,
            TransferStage::Owner => 1,
            TransferStage::End => 0,
        }
    }
}
