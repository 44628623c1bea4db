//! The text of a call.
ghost use Rattle.std.specs.Prelude.{◌≡◌, map, IfOk};
ghost use Rattle.sto_lang.specs.Views.{declaration};
ghost use Rattle.sto_write.specs.Texts.{call_text};

use crate::line::{Ask, push_asked};
use crate::object::decl_with;
use std::alloc::Global;
use sto_lang::{Arg, Decl, Names, Text};
use sto_model::Call;
use sto_part::{List, NoMemory};

/// The text of a call of one of these objects: as its statement says it, with numbers in place of variables, and without the variable
/// that takes the reply. Of a call of no such object it is empty.
pub fn call_text(alloc: Global, decls: &[Decl], call: Call) -> Result<Text, NoMemory>
    ensures { IfOk result (λ text. text.items ≡ call_text (map declaration decls.now) call) }
{
    let mut out = Text::new(alloc);
    let Some(decl) = decl_with(decls, call.object) else {
        return Ok(out);
    };
    let no_variables = Names::of(alloc, List::new(alloc))?;
    let ask = Ask {
        object: call.object,
        operation: call.operation,
        a: Arg::Num(call.a),
        b: Arg::Num(call.b),
    };
    push_asked(&mut out, &no_variables, decl, ask)?;
    Ok(out)
}
