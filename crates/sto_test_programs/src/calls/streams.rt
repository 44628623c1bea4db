//! What a call reads and writes.
ghost use Rattle.std.specs.Prelude.{◌≡◌, drop, string_bytes, map, IfOk};

use std::alloc::Global;
use sto_console::{MemSink, MemSource};
use sto_part::{Bytes, Calls, NoMemory};

// Room for the longest output of a call. One that is longer ends as where the output fails.
const ROOM: u32 = 2_000_000;

// Room for the longest line beside.
const LINE_ROOM: u32 = 100;

/// How many bytes the source gives and how many each sink takes at a call, at least 1, and which call of the source, of the output
/// and of the sink beside fails. Calls are counted from 1, so with 0 none fails.
#[derive(Clone, Copy)]
pub struct Failing {
    pub given: u32,
    pub taken: u32,
    pub source: u64,
    pub out: u64,
    pub diag: u64,
}

/// No call fails.
pub const NONE: Failing = Failing {
    given: 65_536,
    taken: 65_536,
    source: 0,
    out: 0,
    diag: 0,
};

/// What a call wrote, and how it ended.
#[derive(Drop)]
pub struct Called {
    /// What it wrote on standard output.
    pub out: Bytes,
    /// What it wrote on standard error.
    pub line: Bytes,
    /// Its exit status.
    pub status: u8,
}

// A source that has an input left, an output, and a sink for the line beside.
#[derive(Drop)]
pub(crate) struct Streams {
    pub(crate) source: MemSource,
    pub(crate) out: MemSink,
    pub(crate) diag: MemSink,
}

pub(crate) fn streams_for(
    alloc: Global,
    input: &[u8],
    failing: Failing,
) -> Result<Streams, NoMemory>
    ensures { IfOk result (λ streams. drop streams.source.at streams.source.bytes.items ≡ input.now) }
{
    let bytes = copy_of(alloc, input)?;
    let taken = failing.taken.max(1);
    Ok(Streams {
        source: MemSource::new(bytes, failing.given.max(1), only(alloc, failing.source)?),
        out: MemSink::new(alloc, ROOM, taken, only(alloc, failing.out)?)?,
        diag: MemSink::new(alloc, LINE_ROOM, taken, only(alloc, failing.diag)?)?,
    })
}

// What a call wrote that ended with this status.
pub(crate) fn called_with(
    alloc: Global,
    status: u8,
    out: &MemSink,
    diag: &MemSink,
) -> Result<Called, NoMemory>
    ensures bytes { IfOk result (λ called. called.out.items ≡ out.now.bytes.items) }
    ensures status { IfOk result (λ called. called.status ≡ status) }
{
    Ok(Called {
        out: copy_of(alloc, out.held())?,
        line: copy_of(alloc, diag.held())?,
        status,
    })
}

pub(crate) fn owned(alloc: Global, words: &[&str]) -> Result<Vec<String>, NoMemory>
    ensures { IfOk result (λ given. map (λ word. string_bytes word) given.items ≡ map (λ word. word.now) words.now) }
{
    let mut given = Vec::new(alloc);
    for word in words {
        let Ok(word) = String::from_str(alloc, *word) else {
            return Err(NoMemory);
        };
        if given.push(word).is_err() {
            return Err(NoMemory);
        }
    }
    Ok(given)
}

// The numbers of the calls that fail: this one alone.
fn only(alloc: Global, call: u64) -> Result<Calls, NoMemory> {
    let mut calls = Calls::new(alloc);
    calls.push(call)?;
    Ok(calls)
}

fn copy_of(alloc: Global, bytes: &[u8]) -> Result<Bytes, NoMemory>
    ensures { IfOk result (λ copy. copy.items ≡ bytes.now) }
{
    let mut copy = Bytes::new(alloc);
    if bytes.len() > u32::MAX as usize {
        return Err(NoMemory);
    }
    copy.extend(bytes)?;
    Ok(copy)
}
