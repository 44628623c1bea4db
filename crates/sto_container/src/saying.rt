//! Answers that write nothing.
ghost use Rattle.std.specs.Prelude.{◌≡◌, [], IfOk};
ghost use Rattle.sto_model.specs.PlainReplies.{plain_reply, Absent as ToldAbsent};
ghost use Rattle.sto_type.specs.Plans.{Say, planned};

use sto_item::Items;
use sto_model::Reply;
use sto_part::NoMemory;
use sto_type::{Answer, AnswerPool};

/// The answer with these items that writes nothing.
pub fn says(pool: &mut AnswerPool, reply: Reply, items: Items) -> Result<Answer, NoMemory>
    ensures { IfOk result (λ a. planned a ≡ Say (plain_reply reply) items.items []) }
{
    Ok(Answer::Done {
        reply,
        items,
        updates: pool.updates(),
    })
}

/// The answer that there is nothing of the kind, which observes nothing.
pub fn absent(pool: &mut AnswerPool) -> Result<Answer, NoMemory>
    ensures { IfOk result (λ a. planned a ≡ Say ToldAbsent [] []) }
{
    let items = pool.items();
    says(pool, Reply::Absent, items)
}
