//! A body's run over contents.
ghost use Rattle.std.specs.Prelude.{◌≡◌, ◌<◌, ◌+◌, ◌^◌, [], length, map, IfOk, OnOk, OnErr};
ghost use Rattle.sto_model.specs.PlainReplies.{plain_reply};
ghost use Rattle.sto_model.specs.Serial.{IsSerialRun};
ghost use Rattle.sto_test_alone.specs.Along.{IsAlong};
ghost use Rattle.sto_test_alone.specs.Trials.{IsTrial, installed};

use crate::applying::{add_items, add_updates, apply_updates};
use crate::asking::ask_call;
use std::alloc::Global;
use sto_item::{ItemSet, Items, Updates, rebase};
use sto_model::{Body, Call, End, Next, Outcome, Replies};
use sto_part::{Contents, NoMemory};
use sto_type::TxType;

/// What a transaction did.
#[derive(Drop)]
pub struct Ran {
    /// What it heard, and how it ended.
    pub outcome: Outcome,
    /// What it observed of the contents that it began with, in order.
    pub items: Items,
    /// What its calls wrote together; after a cancel nothing of it was applied.
    pub updates: Updates,
}

/// Resets a body and runs it to its end over the contents, in which its updates are installed exactly where it commits.
///
/// After a cancel, and after `NoMemory`, the contents are as before. After `NoMemory` the body may stand anywhere in its run.
pub fn run_alone<T: TxType, B: Body>(
    alloc: Global,
    ty: &T,
    body: &mut B,
    contents: &mut Contents,
) -> Result<Ran, NoMemory>
    requires valid { (T.meaning ty.now).valid contents.old.items }
    requires takes { (call : Call) → B.may_ask body.old call → (T.meaning ty.now).takes call }
    requires few { length contents.old.items + 1 < 2 ^ 32 }
    ensures tried { IfOk result (λ r. IsTrial (T.meaning ty.now) (B.script body.old) contents.old.items (map plain_reply r.outcome.replies.items)
        r.outcome.end r.items.items r.updates.items) }
    ensures leaves { IfOk result (λ r. contents.new ≡ record contents.old
        { items = installed r.outcome.end r.updates.items contents.old.items }) }
    ensures serial { IfOk result (λ r. IsSerialRun (T.meaning ty.now).machines (B.script body.old)
        ((T.meaning ty.now).rows contents.old.items) (map plain_reply r.outcome.replies.items) r.outcome.end
        ((T.meaning ty.now).rows contents.new.items)) }
    ensures valid { (T.meaning ty.now).valid contents.new.items }
    ensures script { B.script body.new ≡ B.script body.old }
    ensures left_at_reset { B.left_at_reset body.new ≡ B.left_at_reset body.old }
    ensures may { (call : Call) → B.may_ask body.new call → B.may_ask body.old call }
    ensures err { OnErr result (contents.new ≡ contents.old) }
{
    let (outcome, items, pending) = run_pending(alloc, ty, body, contents)?;
    let updates = pending.updates()?;
    if let End::Commit = outcome.end {
        apply_updates(ty, &updates, contents);
    }
    Ok(Ran {
        outcome,
        items,
        updates,
    })
}

// Runs a body to its end; its updates are left pending.
fn run_pending<T: TxType, B: Body>(
    alloc: Global,
    ty: &T,
    body: &mut B,
    contents: &Contents,
) -> Result<(Outcome, Items, ItemSet), NoMemory>
    requires valid { (T.meaning ty.now).valid contents.now.items }
    requires takes { (call : Call) → B.may_ask body.old call → (T.meaning ty.now).takes call }
    requires few { length contents.now.items + 1 < 2 ^ 32 }
    ensures tried { IfOk result (λ r. IsTrial (T.meaning ty.now) (B.script body.old) contents.now.items (map plain_reply r.0.replies.items) r.0.end
        r.1.items r.2.updates) }
    ensures script { B.script body.new ≡ B.script body.old }
    ensures left_at_reset { B.left_at_reset body.new ≡ B.left_at_reset body.old }
    ensures may { (call : Call) → B.may_ask body.new call → B.may_ask body.old call }
{
    body.reset();
    let _left = body.left();
    let mut heard = Hearing {
        replies: Replies::new(alloc),
        items: Items::new(alloc),
        pending: ItemSet::new(alloc),
    };
    loop {
        match body.next() {
            Next::Ask(call) => heard.ask(alloc, ty, body, contents, &call)?,
            Next::Commit => return Ok(heard.ended(End::Commit)),
            Next::Cancel => return Ok(heard.ended(End::Cancel)),
        }
    }
}

// What a body has heard, what was observed, and the updates that are pending.
#[derive(Drop)]
struct Hearing {
    replies: Replies,
    items: Items,
    pending: ItemSet,
}

impl Hearing {
    // Asks the next call, and takes in what it was answered.
    fn ask<T: TxType, B: Body>(
        &mut self,
        alloc: Global,
        ty: &T,
        body: &mut B,
        contents: &Contents,
        call: &Call,
    ) -> Result<(), NoMemory>
        requires valid { (T.meaning ty.now).valid contents.now.items }
        requires takes { (T.meaning ty.now).takes call.now }
        requires next { B.then body.old [] ≡ Next.Ask call.now }
        requires few { length contents.now.items + 1 < 2 ^ 32 }
        requires along { IsAlong (T.meaning ty.now) (B.then body.old) (B.script body.old) (B.left body.old) contents.now.items
            self.old.items.items self.old.pending.updates (map plain_reply self.old.replies.items) }
        ensures along { OnOk result (IsAlong (T.meaning ty.now) (B.then body.new) (B.script body.old) (B.left body.new) contents.now.items
            self.new.items.items self.new.pending.updates (map plain_reply self.new.replies.items)) }
        ensures fewer { OnOk result (B.left body.new < B.left body.old) }
        ensures script { B.script body.new ≡ B.script body.old }
        ensures left_at_reset { B.left_at_reset body.new ≡ B.left_at_reset body.old }
        ensures may { (call : Call) → B.may_ask body.new call → B.may_ask body.old call }
    {
        let step = ask_call(alloc, ty, call, contents, &self.pending)?;
        add_items(&mut self.items, &rebase(alloc, &step.items, &self.pending)?)?;
        add_updates(&mut self.pending, &step.updates, contents)?;
        body.hear(&step.reply);
        self.replies.push(step.reply)?;
        Ok(())
    }

    fn ended(self, end: End) -> (Outcome, Items, ItemSet)
        ensures { result ≡ (record { replies = self.replies; end = end }, self.items, self.pending) }
    {
        let Hearing {
            replies,
            items,
            pending,
        } = self;
        (Outcome { replies, end }, items, pending)
    }
}
