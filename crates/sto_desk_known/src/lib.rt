//! What a desk tells a type: a cache, and the parts that a call is planned on.
#![tactic(auto)]

ghost use Rattle.std.specs.Prelude.{◌<◌, ℕ, IsSome, length};
ghost use Rattle.sto_attempt_log.specs.Log.{IsPending, IsCache};
ghost use Rattle.sto_desk.specs.Known.{known};
ghost use Rattle.sto_desk.specs.Reads.{words_in};

mod parts;

pub use parts::DeskParts;
use sto_desk::Desk;
use sto_type::TxType;

/// That what a desk knows is what the cache of an attempt may know: of all contents that what was read is part of.
pub fn knows<T: TxType>(ty: &T, desk: &Desk)
    requires pending { IsPending (T.meaning ty.now) (words_in desk.now.reads) desk.now.set.updates }
    requires inside { (part : ℕ) → IsSome (words_in desk.now.reads part) → part < length (T.meaning ty.now).widths }
    ensures { IsCache (T.meaning ty.now) (words_in desk.now.reads) desk.now.set.updates (known desk.now.known) }
{
    let _ty = ty;
    desk.recalls();
}
