//! The order of abort lines.
ghost use Rattle.std.specs.Prelude.{◌≡◌, ◌↔◌, ◌+◌, ◌<◌, ◌≤◌, ◌⊎◌, [], ◌∷◌, ◌++◌, List, None, IfSome, IsTrue};
ghost use Rattle.sto_report_spec.specs.Aborts.{Abort};
ghost use Rattle.sto_report_spec.specs.LawfulAborts.{IsSorted, count_at, known_at_end};
ghost use Rattle.sto_checker.specs.Reading.{place_of};
ghost use Rattle.sto_checker.specs.Last.{IsLast, IsLastOf, IsFollowed, MayFollow};

use crate::transaction::TransactionPlace;

/// The last abort line: its transaction, how many writers it knew of at its end, and how many lines of that transaction there are
/// up to it.
#[derive(Clone, Copy)]
pub struct LastAbort {
    at: TransactionPlace,
    known: u32,
    count: u32,
}

// The last line, where it is one more of the same transaction.
fn again(last: LastAbort, seen: u32, known: u32, tries: u32) -> Option<LastAbort>
    ensures none { result ≡ None → (last.known ≤ seen) → (last.count < tries) → ⊥ }
    ensures some { IfSome result (λ l. (last.known ≤ seen) × (last.count < tries)
        × (l ≡ record { at = last.at; known = known; count = last.count + 1 })) }
{
    if last.known <= seen && last.count < tries {
        return Some(LastAbort {
            at: last.at,
            known,
            count: last.count + 1,
        });
    }
    None
}

// Whether a further transaction may stand behind the last line: one of a later thread, or a later one of its thread, where its own has
// not used up the tries.
fn may_follow(last: LastAbort, at: TransactionPlace, tries: u32) -> bool
    ensures { IsTrue result ↔ MayFollow last at tries }
{
    last.at.thread < at.thread
        || (last.at.thread == at.thread && last.at.position < at.position && last.count != tries)
}

/// The last line with one more, where that may follow: in the order of threads and positions; in one transaction only where it saw
/// at least what the attempt before it knew at its end; with no more lines of one transaction than the tries; and behind as many only of
/// another thread.
pub fn followed_by(
    last: Option<LastAbort>,
    at: TransactionPlace,
    seen: u32,
    known: u32,
    tries: u32,
) -> Option<LastAbort>
    requires { 1 ≤ tries }
    ensures { (before : List Abort) (a : Abort) → IsLastOf tries before last → a.place ≡ place_of at → a.seen ≡ seen
        → known_at_end a ≡ known → IsFollowed before a tries result }
{
    match last {
        None => Some(LastAbort {
            at,
            known,
            count: 1,
        }),
        Some(last) => behind(last, at, seen, known, tries),
    }
}

// The last line with one more behind it.
fn behind(
    last: LastAbort,
    at: TransactionPlace,
    seen: u32,
    known: u32,
    tries: u32,
) -> Option<LastAbort>
    requires { 1 ≤ tries }
    ensures { (before : List Abort) (a : Abort) → IsLast tries before last → a.place ≡ place_of at → a.seen ≡ seen
        → known_at_end a ≡ known → IsFollowed before a tries result }
{
    if last.at.thread == at.thread && last.at.position == at.position {
        return again(last, seen, known, tries);
    }
    if may_follow(last, at, tries) {
        Some(LastAbort {
            at,
            known,
            count: 1,
        })
    } else {
        None
    }
}
