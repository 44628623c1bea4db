//! What an abort line tells, but for its replies.
ghost use Rattle.std.specs.Prelude.{◌≡◌, ◌↔◌, ℕ, List, ◌∷◌, [], ◌<◌, ◌≤◌, ◌^◌, length, map, IsTrue, MatchOption, IfSome, None, Some, position};
ghost use Rattle.std.specs.List.{slice_split};
ghost use Rattle.std.specs.Str.{bytes_eq};
ghost use Rattle.sto_model.specs.Sizes.{part_count};
ghost use Rattle.sto_lang.specs.Sound.{IsSound};
ghost use Rattle.sto_lang.specs.Views.{file as view, names_of};
ghost use Rattle.sto_report_spec.specs.Aborts.{Abort};
ghost use Rattle.sto_report_spec.specs.Orders.{IsOrder};
ghost use Rattle.sto_report_spec.specs.Named.{is_space};
ghost use Rattle.sto_report_spec.specs.NamedAborts.{aborts_in};
ghost use Rattle.sto_journal.specs.Journals.{places};
ghost use Rattle.sto_checker.specs.Lines.{HasContent};
ghost use Rattle.sto_checker.specs.Reading.{IsSmall, IsAbortRead};
ghost use Rattle.sto_checker.specs.Right.{WroteAt};
ghost use Rattle.sto_checker.specs.Given.{MayBe, IsGivenOr};
ghost use Rattle.sto_checker.specs.Replayed.{IsReplayed};

use crate::reader::GivenLine;
use crate::replayed::Replayed;
use crate::told::{ToldAbort, ToldCause, heard_in};
use crate::transaction::transaction_in;
use crate::window::Window;
use crate::word::{first_piece, number};
use sto_lang::{Decl, File, Thread};
use sto_model::Shape;
use sto_part::List;

/// An abort line: its text, what it tells, and the place of the object of its cause among the declared ones.
#[derive(Clone, Copy)]
pub(crate) struct GivenAbort<'a> {
    pub(crate) text: &'a [u8],
    pub(crate) told: ToldAbort<'a>,
    pub(crate) object: u32,
}

/// What the words of an abort line tell, where its numbers are below 2^32.
fn abort_in<'a>(threads: &[Thread], content: &'a [u8]) -> Option<ToldAbort<'a>>
    requires threads { length threads.now < 2 ^ 32 }
    requires content { length content.now < 2 ^ 32 }
    ensures { (a : Abort) → aborts_in (names_of threads.now) (slice_split is_space content.now) ≡ a ∷ [] → IsSmall a
        → IsAbortRead a result }
{
    let (first, after) = first_piece(content, b' ');
    let (place, after) = first_piece(after?, b' ');
    let (_, after) = first_piece(after?, b' ');
    let (seen, after) = first_piece(after?, b' ');
    let (_, after) = first_piece(after?, b' ');
    let rest = after?;
    if first != b"abort".as_slice() {
        return None;
    }
    let place = transaction_in(threads, place)?;
    let seen = number(seen)?;
    let (heard, cause) = heard_in(rest)?;
    Some(ToldAbort {
        place,
        seen,
        heard,
        cause,
    })
}

// The place of the object with a name.
fn object_named(decls: &[Decl], name: &[u8]) -> Option<usize>
    ensures { result ≡ position (λ decl. bytes_eq name.now decl.name.items) decls.now }
{
    decls.iter().position(|decl| name == decl.name.as_bytes())
}

// Whether an object has a part with this number.
fn has_part(shape: Shape, part: u32) -> bool
    requires { part_count shape < 2 ^ 32 }
    ensures { IsTrue result ↔ (part < part_count shape) }
{
    let part = u64::from(part);
    match shape {
        Shape::Single(_) | Shape::Counter(_) => part < 1,
        Shape::Array { len, .. } => part < u64::from(len),
        Shape::Hash { buckets, places } => part < u64::from(buckets) * (1 + u64::from(places)),
        Shape::Tree { leaves } => part < 2 + 9 * u64::from(leaves),
        Shape::Vector { capacity } => part < 1 + u64::from(capacity),
    }
}

// Whether the writer with a number, from 1, wrote an object.
fn has_written(written: &[List<u32>], by: u32, object: u32) -> bool
    requires { 1 ≤ by }
    ensures { IsTrue result ↔ WroteAt (map (λ objects. objects.items) written.now) by object }
{
    match written.get(by as usize - 1) {
        Some(objects) => objects.as_slice().contains(&object),
        None => false,
    }
}

// Whether the writer that a cause names, where it names one, is a later one that the transaction comes after, and wrote the object.
fn may_be(
    cause: ToldCause<'_>,
    seen: u32,
    window: Window,
    written: &[List<u32>],
    object: u32,
) -> bool
    ensures { IsTrue result ↔ MayBe seen window.most (map (λ objects. objects.items) written.now) object cause.entry.by }
{
    match cause.by {
        None => true,
        Some(by) => seen < by && by <= window.most && has_written(written, by, object),
    }
}

/// The abort line, where all but its replies is right, and the order of abort lines is not looked at.
pub(crate) fn given_abort<'a>(
    file: &File,
    replayed: &Replayed,
    line: GivenLine<'a>,
) -> Option<GivenAbort<'a>>
    requires sound { IsSound (view file.now) }
    requires replayed { IsReplayed (view file.now) replayed.now }
    requires order { IsOrder (view file.now) (places replayed.now.past.run.lines.items) }
    requires content { HasContent line.text.now line.content.now }
    requires few { length line.content.now < 2 ^ 32 }
    ensures given { IsGivenOr (view file.now) (places replayed.now.past.run.lines.items) line.entry.text.now result }
{
    let told = abort_in(file.threads.as_slice(), line.content)?;
    let window = replayed.windows.at(told.place)?;
    if told.seen < window.least || window.most < told.seen {
        return None;
    }
    let object = object_named(file.decls.as_slice(), told.cause.object)? as u32;
    let decl = file.decls.get(object);
    let written = replayed.past.written.as_slice();
    if !has_part(decl.shape, told.cause.part)
        || !may_be(told.cause, told.seen, window, written, decl.number)
    {
        return None;
    }
    Some(GivenAbort {
        text: line.text,
        told,
        object,
    })
}
