//! The order of work: the words, the source, the script, the run, the text, the writing.
ghost use Rattle.std.specs.Prelude.{IfOk, IfErr};
ghost use Rattle.sto_args.specs.Asked.{HasNumbers, feeding_in};
ghost use Rattle.sto_console.specs.declared.refusal.Refusal.TheVariants.{ReadFault, WriteFault};
ghost use Rattle.sto_console.specs.Ends.{Made, Unmade, Ends, RoseFor};
ghost use Rattle.sto_feed_cli.specs.Programs.{feed_program};

use crate::answer::feed_text;
use std::alloc::Global;
use std::sync::Wait;
use std::thread::Threads;
use sto_args::{Feeding, find_feeding};
use sto_console::{Refusal, Sink, Source, script_left, write_text};
use sto_lang::Text;
use sto_run_feed::Gate;

/// Reads the source, and feeds its transactions to the workers.
fn feed_source<R: Threads + Wait + Sync, S: Source, G: Gate>(
    rt: &R,
    alloc: Global,
    asked: Feeding,
    source: &mut S,
    gate: &G,
) -> Result<Text, Refusal>
    requires { HasNumbers asked }
    ensures made { IfOk result (λ text. Made feed_program asked tt (S.left source.old) (S.left source.new) text.items) }
    ensures unmade { IfErr result (λ e. Unmade feed_program e asked (S.left source.old) (S.left source.new)) }
    ensures source_faults { RoseFor ReadFault result (S.faults source.old) (S.faults source.new) }
{
    let bytes = script_left(alloc, source)?;
    feed_text(rt, alloc, asked, bytes.as_slice(), gate)
}

/// Does what the words say: makes the whole report, and writes it.
#[tactic(auto, using(sto_console::proofs::Making::refused_making, sto_console::proofs::Making::refused_writing, sto_console::proofs::Making::unwritten, sto_console::proofs::Making::unread))]
pub(crate) fn perform<R: Threads + Wait + Sync, S: Source, K: Sink, G: Gate>(
    rt: &R,
    alloc: Global,
    words: &[String],
    source: &mut S,
    out: &mut K,
    gate: &G,
) -> Result<(), Refusal>
    ensures ends { Ends feed_program result (feeding_in words.now) (S.left source.old) (S.left source.new)
        (K.held out.old) (K.held out.new) }
    ensures source_faults { RoseFor ReadFault result (S.faults source.old) (S.faults source.new) }
    ensures out_faults { RoseFor WriteFault result (K.faults out.old) (K.faults out.new) }
{
    let Some(asked) = find_feeding(alloc, words)? else {
        return Err(Refusal::Usage);
    };
    let text = feed_source(rt, alloc, asked, source, gate)?;
    write_text(out, text.as_bytes())
}
