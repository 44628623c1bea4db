//! A whole input, and a whole output.
ghost use Rattle.std.specs.Prelude.{◌≡◌, ◌<◌, ◌≤◌, ◌^◌, ℕ, take, length, IfOk, OnOk, OnErr, IsErrOf};
ghost use Rattle.sto_console.specs.Told.{Takes, Gains, AtEnd, Rose};
ghost use Rattle.sto_console.specs.declared.whole.ReadAllError.TheVariants.{NoMemory};

use crate::{Failed, Sink, Source};
use std::alloc::Global;
use sto_part::Bytes;

/// Why an input was not read: the source failed, or memory could not be had.
#[derive(Clone, Copy, PartialEq, Eq)]
pub enum ReadAllError {
    Fault,
    NoMemory,
}

impl From<sto_part::NoMemory> for ReadAllError {
    ghost from_gives = { λ _ e. e ≡ NoMemory };

    fn from(_: sto_part::NoMemory) -> Self {
        ReadAllError::NoMemory
    }
}

#[tactic(auto, using(crate::proofs::ToldLemmas::takes_nothing, crate::proofs::ToldLemmas::takes_more))]
/// Reads to the end, or until `most` bytes are taken.
pub fn read_all<S: Source>(
    alloc: Global,
    source: &mut S,
    most: usize,
) -> Result<Bytes, ReadAllError>
    requires { most < 2 ^ 32 }
    ensures taken { IfOk result (λ bytes. Takes (S.left source.old) (S.left source.new) bytes.items) }
    ensures few { IfOk result (λ bytes. length bytes.items ≤ most) }
    ensures end { IfOk result (λ bytes. length bytes.items < most → AtEnd (S.left source.new)) }
    ensures steady { OnOk result (S.faults source.new ≡ S.faults source.old) }
    ensures memory { IsErrOf result ReadAllError.NoMemory → S.faults source.new ≡ S.faults source.old }
    ensures cause { IsErrOf result ReadAllError.Fault → Rose (S.faults source.old) (S.faults source.new) }
{
    let mut bytes = Bytes::new(alloc);
    let mut buf = [0u8; 4096];
    while (bytes.len() as usize) < most {
        let room = (most - bytes.len() as usize).min(4096);
        match source.read(&mut buf[..room]) {
            Ok(0) => return Ok(bytes),
            Ok(taken) => bytes.extend(&buf[..taken])?,
            Err(Failed) => return Err(ReadAllError::Fault),
        }
    }
    Ok(bytes)
}

#[tactic(auto, using(crate::proofs::ToldLemmas::gains_nothing, crate::proofs::ToldLemmas::gains_more))]
/// Writes all of the bytes, piece by piece. After `Failed` a front of them was written.
pub fn write_all<K: Sink>(out: &mut K, bytes: &[u8]) -> Result<(), Failed>
    ensures whole { OnOk result (Gains (K.held out.old) (K.held out.new) bytes.now) }
    ensures front { OnErr result ((n : ℕ) × Gains (K.held out.old) (K.held out.new) (take n bytes.now)) }
    ensures steady { OnOk result (K.faults out.new ≡ K.faults out.old) }
    ensures cause { OnErr result (Rose (K.faults out.old) (K.faults out.new)) }
{
    let mut at = 0;
    while at < bytes.len() {
        at += out.write(&bytes[at..])?;
    }
    Ok(())
}
