//! The text of the state.
ghost use Rattle.std.specs.Prelude.{◌≡◌, ◌++◌, ◌<◌, length, OnOk, string_bytes, map};
ghost use Rattle.std.specs.List.{flat_map};
ghost use Rattle.sto_lang.specs.Views.{declaration};
ghost use Rattle.sto_report_spec.specs.Report.{object_text};
ghost use Rattle.sto_journal.specs.Journals.{HaveRows};

use crate::rows::push_rows;
use std::alloc::AllocError;
use std::fmt::Write;
use sto_lang::Decl;
use sto_model::State;

/// Adds the line of an object to a text: its name and its rows in this state.
pub fn push_object(out: &mut String, decl: &Decl, state: &State) -> Result<(), AllocError>
    requires { decl.now.number < length state.now.items }
    ensures { OnOk result (string_bytes out.new ≡ string_bytes out.old ++ object_text state.now.items (declaration decl.now)) }
{
    let name = decl.name.as_str();
    write!(out, "{name} = ")?;
    push_rows(out, decl.shape, state.get(decl.number))?;
    out.push_str("\n")
}

/// Adds the line of each object.
pub(crate) fn push_objects(
    out: &mut String,
    decls: &[Decl],
    state: &State,
) -> Result<(), AllocError>
    requires { HaveRows state.now.items decls.now }
    ensures { OnOk result (string_bytes out.new ≡ string_bytes out.old
        ++ flat_map (object_text state.now.items) (map declaration decls.now)) }
{
    for decl in decls {
        push_object(out, decl, state)?;
    }
    Ok(())
}
