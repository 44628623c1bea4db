//! The order of work: the words, the source, the script, the report, the line, the writing.
ghost use Rattle.std.specs.Prelude.{IfOk, IfErr};
ghost use Rattle.sto_args.specs.Asked.{checking_in, HasTries};
ghost use Rattle.sto_console.specs.declared.refusal.Refusal.TheVariants.{ReadFault, WriteFault};
ghost use Rattle.sto_console.specs.Ends.{Made, Unmade, Ends, RoseFor};
ghost use Rattle.sto_check_cli.specs.Programs.{program, text_of};

use crate::judge::found_in;
use crate::line::text_of;
use std::alloc::Global;
use sto_args::{Checking, find_checking};
use sto_checker::Found;
use sto_console::{Refusal, Sink, Source, bytes_left, write_text};

/// Reads the source to its end or past the limit, and checks the report in it.
fn found_of<S: Source>(alloc: Global, asked: Checking, source: &mut S) -> Result<Found, Refusal>
    requires { HasTries asked }
    ensures made { IfOk result (λ found. Made program asked found (S.left source.old) (S.left source.new) (text_of found)) }
    ensures unmade { IfErr result (λ e. Unmade program e asked (S.left source.old) (S.left source.new)) }
    ensures source_faults { RoseFor ReadFault result (S.faults source.old) (S.faults source.new) }
{
    let bytes = bytes_left(alloc, source, 16_777_217)?;
    found_in(alloc, asked.tries, bytes.as_slice())
}

/// Does what the words say: checks the report, and writes what was found.
#[tactic(auto, using(sto_console::proofs::Making::refused_making, sto_console::proofs::Making::refused_writing, sto_console::proofs::Making::unwritten, sto_console::proofs::Making::unread))]
pub(crate) fn perform<S: Source, K: Sink>(
    alloc: Global,
    words: &[String],
    source: &mut S,
    out: &mut K,
) -> Result<Found, Refusal>
    ensures ends { Ends program result (checking_in words.now) (S.left source.old) (S.left source.new) (K.held out.old) (K.held out.new) }
    ensures source_faults { RoseFor ReadFault result (S.faults source.old) (S.faults source.new) }
    ensures out_faults { RoseFor WriteFault result (K.faults out.old) (K.faults out.new) }
{
    let Some(asked) = find_checking(alloc, words)? else {
        return Err(Refusal::Usage);
    };
    let found = found_of(alloc, asked, source)?;
    let line = text_of(alloc, found)?;
    write_text(out, line.as_bytes())?;
    Ok(found)
}
