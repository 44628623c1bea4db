//! One call over contents with pending updates.
ghost use Rattle.std.specs.Prelude.{◌≡◌, ◌<◌, ℤ, List, length, IfOk};
ghost use Rattle.sto_part.specs.Parts.{part_of};
ghost use Rattle.sto_item.specs.Pending.{applied_updates, AreUpdates};
ghost use Rattle.sto_item.specs.Agreement.{HasWidths};
ghost use Rattle.sto_test_alone.specs.Steps.{IsStep};

use std::alloc::Global;
use sto_item::{ItemSet, Items, Updates};
use sto_model::{Call, Reply};
use sto_part::{Contents, NoMemory, PartWords};
use sto_type::{Answer, AnswerPool, Cache, TxType};

/// What a call answers, observes and writes.
#[derive(Drop)]
pub(crate) struct AnsweredCall {
    pub(crate) reply: Reply,
    pub(crate) items: Items,
    pub(crate) updates: Updates,
}

/// Asks one call, and learns each part that it needs, with the pending updates applied.
pub(crate) fn ask_call<T: TxType>(
    alloc: Global,
    ty: &T,
    call: &Call,
    contents: &Contents,
    pending: &ItemSet,
) -> Result<AnsweredCall, NoMemory>
    requires takes { (T.meaning ty.now).takes call.now }
    requires ordered { AreUpdates pending.now.updates }
    requires widths { HasWidths pending.now.updates contents.now.items }
    requires valid { (T.meaning ty.now).valid (applied_updates pending.now.updates contents.now.items) }
    ensures { IfOk result (IsStep (T.meaning ty.now) call.now (applied_updates pending.now.updates contents.now.items)) }
{
    let mut cache = Cache::new(alloc);
    let mut pool = AnswerPool::new(alloc);
    loop {
        match ty.plan(alloc, &mut pool, call, &cache.all())? {
            Answer::Done {
                reply,
                items,
                updates,
            } => {
                return Ok(AnsweredCall {
                    reply,
                    items,
                    updates,
                });
            }
            Answer::Need(part) => {
                let words = updated_part(alloc, ty, contents, pending, part)?;
                cache.learn(part, words.as_slice())?;
            }
        }
    }
}

// The words of a part with the pending updates applied.
fn updated_part<T: TxType>(
    alloc: Global,
    ty: &T,
    contents: &Contents,
    pending: &ItemSet,
    part: u32,
) -> Result<PartWords, NoMemory>
    requires range { part < length contents.now.items }
    requires ordered { AreUpdates pending.now.updates }
    requires widths { HasWidths pending.now.updates contents.now.items }
    ensures { IfOk result (λ made. made.items ≡ part_of (applied_updates pending.now.updates contents.now.items) part) }
{
    let mut made = PartWords::new(alloc);
    for word in 0..contents.width(part) {
        made.push(ty.install(pending.pending(part, word), contents.word(part, word)))?;
    }
    Ok(made)
}
