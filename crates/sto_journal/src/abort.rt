//! The text of abort lines.
ghost use Rattle.std.specs.Prelude.{◌≡◌, ◌++◌, ◌<◌, ◌^◌, length, OnOk, string_bytes, map, is_some, true, codes, decimal};
ghost use Rattle.std.specs.List.{All, flat_map};
ghost use Rattle.sto_model.specs.PlainReplies.{plain_reply};
ghost use Rattle.sto_lang.specs.Objects.{HaveNames, with_number};
ghost use Rattle.sto_lang.specs.Views.{declaration, names_of};
ghost use Rattle.sto_report_spec.specs.Aborts.{part_by_home};
ghost use Rattle.sto_report_spec.specs.Report.{abort_text, cause_text, part_text};
ghost use Rattle.sto_report_spec.specs.Short.{IsShortAbort, IsShortCause};
ghost use Rattle.sto_journal.specs.Journals.{abort, cause, home_in, home_pair, IsAbortOf, AreAbortsOf};

use crate::names::{object_name, thread_name};
use crate::replies::push_replies;
use crate::{AbortLine, Cause};
use std::alloc::AllocError;
use std::fmt::Write;
use sto_lang::{Decl, Thread};
use sto_type::Home;

/// Adds a part, by the name of its object and its number there. Where no object has the number, the name is empty.
pub fn push_part(out: &mut String, decls: &[Decl], home: Home) -> Result<(), AllocError>
    ensures text { OnOk result (string_bytes out.new ≡ string_bytes out.old
        ++ part_text (part_by_home (map declaration decls.now) (home_pair home))) }
    ensures short { home.local < 2 ^ 64 }
{
    let Home { object, local } = home;
    let name = object_name(decls, object);
    write!(out, "{name} {local}")
}

fn push_writer(out: &mut String, by: u32) -> Result<(), AllocError>
    ensures text { OnOk result (string_bytes out.new ≡ string_bytes out.old ++ (codes " by " ++ decimal by)) }
    ensures short { by < 2 ^ 64 }
{
    write!(out, " by {by}")
}

#[tactic(auto, using(crate::proofs::Shorts::locked_short, crate::proofs::Shorts::changed_short))]
fn push_cause(out: &mut String, decls: &[Decl], why: Cause) -> Result<(), AllocError>
    requires names { HaveNames (map declaration decls.now) }
    requires declared { is_some (with_number (home_in why).object (map declaration decls.now)) ≡ true }
    ensures text { OnOk result (string_bytes out.new ≡ string_bytes out.old ++ cause_text (cause (map declaration decls.now) why)) }
    ensures short { OnOk result (IsShortCause (cause (map declaration decls.now) why)) }
{
    match why {
        Cause::Locked { home } => {
            out.push_str("locked ")?;
            push_part(out, decls, home)
        }
        Cause::Changed { home, by } => {
            out.push_str("changed ")?;
            push_part(out, decls, home)?;
            push_writer(out, by)
        }
    }
}

/// Adds an abort line to a text: its transaction, the writers that it saw, its replies and its cause.
#[tactic(auto, using(crate::proofs::Shorts::abort_short, crate::proofs::Shorts::replies_short))]
pub fn push_abort(
    out: &mut String,
    threads: &[Thread],
    decls: &[Decl],
    line: &AbortLine,
) -> Result<(), AllocError>
    requires names { HaveNames (map declaration decls.now) }
    requires known { IsAbortOf (length threads.now) (map declaration decls.now) line.now }
    ensures text { OnOk result (string_bytes out.new ≡ string_bytes out.old
        ++ abort_text (names_of threads.now) (abort (map declaration decls.now) line.now)) }
    ensures short { OnOk result (IsShortAbort (names_of threads.now) (abort (map declaration decls.now) line.now)) }
{
    let AbortLine {
        thread,
        position,
        at,
        replies,
        cause,
    } = line;
    let (position, at) = (*position, *at);
    let name = thread_name(threads, *thread);
    write!(out, "abort {name}.{position} at {at} saw")?;
    push_replies(out, replies.as_slice())?;
    out.push_str(" ")?;
    push_cause(out, decls, *cause)?;
    out.push_str("\n")
}

/// Adds abort lines.
pub(crate) fn push_aborts(
    out: &mut String,
    threads: &[Thread],
    decls: &[Decl],
    lines: &[AbortLine],
) -> Result<(), AllocError>
    requires names { HaveNames (map declaration decls.now) }
    requires known { AreAbortsOf (length threads.now) (map declaration decls.now) lines.now }
    ensures text { OnOk result (string_bytes out.new ≡ string_bytes out.old
        ++ flat_map (abort_text (names_of threads.now)) (map (abort (map declaration decls.now)) lines.now)) }
    ensures short { OnOk result (All (λ l. IsShortAbort (names_of threads.now) (abort (map declaration decls.now) l)) lines.now) }
{
    for line in lines {
        push_abort(out, threads, decls, line)?;
    }
    Ok(())
}
