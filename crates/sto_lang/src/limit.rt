//! The limits, each tested at the line that goes past it.
ghost use Rattle.std.specs.Prelude.{◌≡◌, ◌+◌, not, length, nat_lt, ◌||◌, true};
ghost use Rattle.std.specs.List.{list_all};
ghost use Rattle.sto_syntax.specs.Views.{entries as entries_of, entry as entry_of, thread_word, name_option, form as form_of};
ghost use Rattle.sto_lang.specs.Drafts.{variables_in, with_variable, with_assigned};
ghost use Rattle.sto_lang.specs.Shapes.{is_in_ranges, shape_of};
ghost use Rattle.sto_lang.specs.Limits.{is_full, is_deep, is_heavy, is_in_range, has_range, has_thread, is_turn, is_beyond, most_threads};
ghost use Rattle.sto_lang.specs.DraftViews.{draft_of};
ghost use Rattle.sto_lang.specs.Weighed.{begun_weight, ended_weight};

use crate::draft::Draft;
use crate::range::{in_range, is_in_ranges, natural, shape};
use crate::variables::Variables;
use sto_syntax::{Declared, Entries, Form, Name, ScheduleEntry, ThreadWord};

#[tactic(auto, using(crate::proofs::LimitLemmas::widest, crate::proofs::LimitLemmas::small_parts, crate::proofs::LimitLemmas::small_words))]
/// Whether a declaration has a number outside its range, or goes past a limit.
fn is_declared_beyond(draft: &Draft, declared: &Declared) -> bool
    ensures { result ≡ (not (is_in_ranges draft.now.version declared.now) || is_full draft.now.version draft.now.objects
        (shape_of declared.now)) }
{
    let version = draft.version;
    !is_in_ranges(version, declared) || draft.objects.is_full(version, &shape(declared))
}

#[tactic(auto, using(crate::proofs::LimitLemmas::upon_count))]
/// Whether one more choice or repetition would be too deep.
fn is_deep(draft: &Draft) -> bool
    ensures { result ≡ is_deep (draft_of draft.now) }
{
    match &draft.begun {
        Some(begun) => 8 < u64::from(begun.blocks.len()) + 1,
        None => false,
    }
}

/// Whether a transaction of this weight, or with it the file, weighs too much.
fn is_heavy(draft: &Draft, own: u64) -> bool
    requires { own ≡ begun_weight (draft_of draft.now) (draft_of draft.now).inside }
    ensures { result ≡ is_heavy (draft_of draft.now) (draft_of draft.now).inside }
{
    match &draft.begun {
        Some(_) => 4096 < own || 131_072 < u64::from(draft.weight) + own,
        None => false,
    }
}

/// Whether an entry has the number of a thread of the file and 1 to 1,000,000 steps.
fn is_turn(threads: u32, entry: ScheduleEntry<'_>) -> bool
    ensures { result ≡ is_turn threads (entry_of entry.entry) }
{
    has_range(entry.thread)
        && in_range(1, 1_000_000, entry.steps)
        && has_thread(threads, entry.thread)
}

fn has_range(word: ThreadWord<'_>) -> bool
    ensures { result ≡ has_range (thread_word word.entry) }
{
    match word {
        ThreadWord::Numbered(value) => in_range(0, 1_000_000, value),
        ThreadWord::Named(_) => true,
    }
}

#[tactic(auto, using(crate::proofs::LimitLemmas::at_most))]
fn has_thread(threads: u32, word: ThreadWord<'_>) -> bool
    requires { has_range (thread_word word) ≡ true }
    ensures { result ≡ has_thread threads (thread_word word.entry) }
{
    match word {
        ThreadWord::Numbered(value) => natural(value) < threads,
        ThreadWord::Named(_) => true,
    }
}

/// The greatest number of threads.
fn most_threads(version: u32) -> u64
    ensures { result ≡ most_threads version }
{
    if version == 2 { 64 } else { 16 }
}

fn are_turns(threads: u32, entries: Entries<'_>) -> bool
    ensures { result ≡ list_all (is_turn threads) (entries_of entries.entry) }
{
    let mut rest = entries;
    while let Some((entry, after)) = rest.next() {
        if !is_turn(threads, entry) {
            return false;
        }
        rest = after;
    }
    true
}

#[tactic(auto, using(crate::proofs::LimitLemmas::variables_more))]
/// Whether there are too many variables with the one of this name. It is looked up only where there are
/// as many as there may be.
fn are_many_with(variables: &Variables, name: &Name<'_>) -> bool
    ensures { result ≡ nat_lt 64 (length (with_variable variables.now name.now.bytes.now)) }
{
    let count = variables.len();
    64 < count || (count == 64 && variables.find(name).is_none())
}

/// Whether a transaction has too many variables with the one that a line assigns.
fn has_many_variables(draft: &Draft, to: Option<Name<'_>>) -> bool
    ensures { result ≡ nat_lt 64 (length (with_assigned (variables_in (draft_of draft.now).inside) (name_option to.entry))) }
{
    match (&draft.begun, to) {
        (None, _) => false,
        (Some(begun), None) => 64 < begun.variables.len(),
        (Some(begun), Some(to)) => are_many_with(&begun.variables, &to),
    }
}

/// Whether a number is outside the range of its place, or the line brings the file past a limit; `own` is the weight
/// of the transaction that it ends.
pub(crate) fn is_beyond(draft: &Draft, form: &Form<'_>, own: u64) -> bool
    requires { own ≡ ended_weight (draft_of draft.now) (form_of form.now) }
    ensures { result ≡ is_beyond (draft_of draft.now) (form_of form.now) }
{
    match form {
        Form::Declare { declared, .. } => is_declared_beyond(draft, declared),
        Form::Version { version } => !in_range(2, 2, *version),
        Form::Thread { .. } => { most_threads(draft.version) < u64::from(draft.threads.len()) + 1 }
        Form::Begin => 10_000 < u64::from(draft.transactions) + 1,
        Form::If { .. } => is_deep(draft),
        Form::Repeat { times } => !in_range(0, 4096, *times) || is_deep(draft),
        Form::Commit => is_heavy(draft, own),
        Form::Schedule { entries } => !are_turns(draft.threads.len(), *entries),
        Form::Call { to, .. } => has_many_variables(draft, *to),
        Form::Sum { to, .. } | Form::Diff { to, .. } => has_many_variables(draft, Some(*to)),
        _ => has_many_variables(draft, None),
    }
}
