//! The text of `draw`: the picture of a run.
ghost use Rattle.std.specs.Prelude.{IfOk, IfErr};
ghost use Rattle.sto_args.specs.declared.command.Command.TheVariants as commands;
ghost use Rattle.sto_lang.specs.Sound.{IsFromTo};
ghost use Rattle.sto_draw.specs.Drawn.{IsTooLong};
ghost use Rattle.sto_cli.specs.Traces.{IsRunFault, NeverMany, IsRefusalFor};
ghost use Rattle.sto_cli.specs.Outputs.{IsOutput};

use crate::traced::traceable_in;
use std::alloc::Global;
use sto_args::GivenText;
use sto_console::{InputFault, Refusal};
use sto_draw::draw_file;
use sto_lang::Text;

/// What `draw` prints for these bytes, by the schedule of the words, where there are words.
pub(crate) fn draw_text(
    alloc: Global,
    bytes: &[u8],
    tries: u32,
    schedule: &Option<GivenText>,
) -> Result<Text, Refusal>
    requires { IsFromTo 1 64 tries }
    ensures text { IfOk result (λ text. IsOutput (commands.Draw tries schedule.now) bytes.now text.items) }
    ensures fault { IfErr result (λ e. IsRefusalFor (IsRunFault (IsTooLong tries) NeverMany schedule.now bytes.now) e) }
{
    let file = traceable_in(alloc, bytes, schedule)?;
    match draw_file(alloc, &file, tries)? {
        Some(text) => Ok(text),
        None => Err(Refusal::Input(InputFault::LongRun)),
    }
}
