//! The schedule, and what a transaction weighs.
ghost use Rattle.std.specs.Prelude.{List as Seq, ◌≡◌, ◌+◌, ◌^◌, ◌<◌, length, map, IfOk, true, min};
ghost use Rattle.std.specs.List.{list_all};
ghost use Rattle.sto_syntax.specs.Views.{entries as entries_of, form as form_of};
ghost use Rattle.sto_lang.specs.Limits.{is_in_range};
ghost use Rattle.sto_lang.specs.Drafts.{turns_of, script_of};
ghost use Rattle.sto_lang.specs.BegunViews.{begun_of};
ghost use Rattle.sto_lang.specs.DraftViews.{draft_of};
ghost use Rattle.sto_lang.specs.Objects.{Object, shapes_in};
ghost use Rattle.sto_lang.specs.Shapes.{in_order};
ghost use Rattle.sto_lang.specs.Weighed.{begun_weight, ended_weight, AreWeighed};
ghost use Rattle.sto_lang.specs.Views.{names_of};

use crate::draft::Draft;
use crate::open_transaction::OpenTransaction;
use crate::range::natural;
use crate::thread::thread_number;
use crate::weight::TOO_HEAVY;
use crate::{Schedule, Thread, Turns};
use std::alloc::Global;
use sto_part::{List, NoMemory};
use sto_syntax::{Entries, Form};

/// What a transaction weighs, or the least weight that no transaction may have.
fn own_weight(begun: &OpenTransaction) -> u64
    ensures { (objects : Seq Object) → AreWeighed (in_order (shapes_in objects)) begun.now
        → result ≡ min (script_of objects (begun_of begun.now)).weight 4097 }
{
    (1 + u64::from(begun.statements.weight)).min(TOO_HEAVY)
}

/// What the transaction weighs that the lines stand in.
fn begun_weight(draft: &Draft) -> u64
    ensures { result ≡ begun_weight (draft_of draft.now) (draft_of draft.now).inside }
{
    match &draft.begun {
        Some(begun) => own_weight(begun),
        None => 0,
    }
}

/// What the transaction weighs that a `commit` ends: it is weighed once for all that is asked of its weight.
pub(crate) fn ended_weight(draft: &Draft, form: &Form<'_>) -> u64
    ensures { result ≡ ended_weight (draft_of draft.now) (form_of form.now) }
{
    match form {
        Form::Commit => begun_weight(draft),
        _ => 0,
    }
}

/// The entries of a schedule.
pub(crate) fn turns(
    alloc: Global,
    threads: &[Thread],
    entries: Entries<'_>,
) -> Result<Schedule, NoMemory>
    requires few { length threads.now < 2 ^ 32 }
    requires ranges { list_all is_in_range (entries_of entries) ≡ true }
    ensures { IfOk result (λ s. s.items ≡ map (turns_of (names_of threads.now)) (entries_of entries.entry)) }
{
    let mut made = List::new(alloc);
    let mut rest = entries;
    while let Some((entry, after)) = rest.next() {
        made.push(Turns {
            thread: thread_number(threads, entry.thread),
            steps: natural(entry.steps),
        })?;
        rest = after;
    }
    Ok(made)
}
