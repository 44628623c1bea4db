//! The text of what an event did.
ghost use Rattle.std.specs.Prelude.{◌≡◌, ◌++◌, codes, OnOk, string_bytes};
ghost use Rattle.sto_trace_text.specs.Named.{named};
ghost use Rattle.sto_trace_text.specs.Texts.{decision_text, deed_text, part_at, version_text, word_text};

use crate::names::{Names, push_part};
use std::alloc::AllocError;
use std::fmt::Write;
use sto_trace::Deed;
use sto_version::Version;

// Adds a part and its version.
fn push_version(
    out: &mut String,
    names: &Names<'_>,
    part: u32,
    version: Version,
) -> Result<(), AllocError>
    ensures { OnOk result (string_bytes out.new ≡ string_bytes out.old ++ version_text (named names.now) part version) }
{
    push_part(out, names, part)?;
    let ticket = version.ticket();
    if version.is_locked() {
        write!(out, " locked {ticket}")
    } else {
        write!(out, " free {ticket}")
    }
}

// Adds a word of a part and its value.
fn push_word(
    out: &mut String,
    names: &Names<'_>,
    part: u32,
    word: u32,
    value: i64,
) -> Result<(), AllocError>
    ensures { OnOk result (string_bytes out.new ≡ string_bytes out.old ++ word_text (named names.now) part word value) }
{
    push_part(out, names, part)?;
    write!(out, ".{word} = {value}")
}

// Adds an event that found a version.
fn push_found(
    out: &mut String,
    names: &Names<'_>,
    event: &str,
    part: u32,
    version: Version,
) -> Result<(), AllocError>
    ensures { OnOk result (string_bytes out.new ≡ string_bytes out.old ++ (event.now ++ version_text (named names.now) part version)) }
{
    out.push_str(event)?;
    push_version(out, names, part, version)
}

// Adds an event on a word of a part.
fn push_on_word(
    out: &mut String,
    names: &Names<'_>,
    event: &str,
    part: u32,
    word: u32,
    value: i64,
) -> Result<(), AllocError>
    ensures { OnOk result (string_bytes out.new ≡ string_bytes out.old ++ (event.now ++ word_text (named names.now) part word value)) }
{
    out.push_str(event)?;
    push_word(out, names, part, word, value)
}

// Adds an event that let a part go.
fn push_let_go(
    out: &mut String,
    names: &Names<'_>,
    event: &str,
    part: u32,
) -> Result<(), AllocError>
    ensures { OnOk result (string_bytes out.new ≡ string_bytes out.old ++ (event.now ++ part_at (named names.now) part)) }
{
    out.push_str(event)?;
    push_part(out, names, part)
}

// Adds a decision.
fn push_decision(out: &mut String, commit: bool) -> Result<(), AllocError>
    ensures { OnOk result (string_bytes out.new ≡ string_bytes out.old ++ decision_text commit) }
{
    if commit {
        out.push_str("decide commit")
    } else {
        out.push_str("decide drop")
    }
}

/// Adds what an event did, and what it found.
pub(crate) fn push_deed(out: &mut String, names: &Names<'_>, deed: Deed) -> Result<(), AllocError>
    ensures { OnOk result (string_bytes out.new ≡ string_bytes out.old ++ deed_text (named names.now) deed) }
{
    match deed {
        Deed::Start { clock } => write!(out, "start at {clock}"),
        Deed::Renew { clock } => write!(out, "renew at {clock}"),
        Deed::Open { part, version } => push_found(out, names, "open ", part, version),
        Deed::Word { part, word, value } => push_on_word(out, names, "word ", part, word, value),
        Deed::Close { part, version } => push_found(out, names, "close ", part, version),
        Deed::Recheck { part, version } => push_found(out, names, "recheck ", part, version),
        Deed::Lock { part, version } => push_found(out, names, "lock ", part, version),
        Deed::Test { part, version } => push_found(out, names, "test ", part, version),
        Deed::Draw { ticket } => write!(out, "draw {ticket}"),
        Deed::Check { part, version } => push_found(out, names, "check ", part, version),
        Deed::Decide { commit } => push_decision(out, commit),
        Deed::Put { part, word, value } => push_on_word(out, names, "put ", part, word, value),
        Deed::Release { part } => push_let_go(out, names, "release ", part),
        Deed::Unlock { part } => push_let_go(out, names, "unlock ", part),
    }
}
