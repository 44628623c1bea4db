//! What is read and written whole.
ghost use Rattle.std.specs.Prelude.{◌≡◌, ◌<◌, ◌≤◌, ◌^◌, length, Ok, IfOk, IfErr};
ghost use Rattle.sto_console.specs.Told.{Takes, AtEnd};
ghost use Rattle.sto_lang.specs.Files.{file_of};
ghost use Rattle.sto_lang.specs.Views.{file as view};
ghost use Rattle.sto_console.specs.declared.refusal.Refusal.TheVariants.{ReadFault, WriteFault};
ghost use Rattle.sto_console.specs.Ends.{IsReadRefusal, IsFileRefusal, IsWritten, RoseFor};

use crate::refusal::{InputFault, Refusal};
use crate::stream::{Sink, Source};
use crate::whole::{ReadAllError, read_all, write_all};
use std::alloc::Global;
use sto_lang::{File, ReadError};
use sto_part::Bytes;

/// Reads the source to its end, or until so many bytes are taken. Where the source fails, what it gave is let go.
pub fn bytes_left<S: Source>(alloc: Global, source: &mut S, most: usize) -> Result<Bytes, Refusal>
    requires { most < 2 ^ 32 }
    ensures taken { IfOk result (λ bytes. Takes (S.left source.old) (S.left source.new) bytes.items) }
    ensures few { IfOk result (λ bytes. length bytes.items ≤ most) }
    ensures end { IfOk result (λ bytes. length bytes.items < most → AtEnd (S.left source.new)) }
    ensures refused { IfErr result IsReadRefusal }
    ensures source_faults { RoseFor ReadFault result (S.faults source.old) (S.faults source.new) }
{
    match read_all(alloc, source, most) {
        Ok(bytes) => Ok(bytes),
        Err(ReadAllError::Fault) => Err(Refusal::ReadFault),
        Err(ReadAllError::NoMemory) => Err(Refusal::NoMemory),
    }
}

/// Reads the source to its end, or until there is one byte more than a script may have.
pub fn script_left<S: Source>(alloc: Global, source: &mut S) -> Result<Bytes, Refusal>
    ensures taken { IfOk result (λ bytes. Takes (S.left source.old) (S.left source.new) bytes.items) }
    ensures few { IfOk result (λ bytes. length bytes.items ≤ 1048577) }
    ensures end { IfOk result (λ bytes. length bytes.items < 1048577 → AtEnd (S.left source.new)) }
    ensures refused { IfErr result IsReadRefusal }
    ensures source_faults { RoseFor ReadFault result (S.faults source.old) (S.faults source.new) }
{
    bytes_left(alloc, source, 1_048_577)
}

/// The file that the bytes are. They are refused where they have a fault of a script, which is told, or for want of memory.
pub fn file_in(alloc: Global, bytes: &[u8]) -> Result<File, Refusal>
    ensures file { IfOk result (λ f. file_of bytes.now ≡ Ok (view f)) }
    ensures fault { IfErr result (λ e. IsFileRefusal e bytes.now) }
{
    match sto_lang::read(alloc, bytes) {
        Ok(file) => Ok(file),
        Err(ReadError::Fault(fault)) => Err(Refusal::Input(InputFault::Script(fault))),
        Err(ReadError::NoMemory) => Err(Refusal::NoMemory),
    }
}

/// Writes a text. Where the output fails, a front of it was written.
pub fn write_text<K: Sink>(out: &mut K, text: &[u8]) -> Result<(), Refusal>
    ensures written { IsWritten result text.now (K.held out.old) (K.held out.new) }
    ensures out_faults { RoseFor WriteFault result (K.faults out.old) (K.faults out.new) }
{
    match write_all(out, text) {
        Ok(()) => Ok(()),
        Err(_) => Err(Refusal::WriteFault),
    }
}
