//! A source and a sink over memory, whose calls fail where they are told to.
ghost use Rattle.std.specs.Prelude.{◌≡◌, ◌<◌, ◌≤◌, ℕ, List, [], ◌++◌, take, drop, length, min, IfOk, OnOk, OnErr, IsErr, ◌↔◌, ◌⊎◌, Contains, ◌^◌, ◌-◌, ◌+◌};
ghost use Rattle.sto_console.specs.Told.{Takes, Gains, AtEnd, Rose};

use crate::give::give;
use crate::{Failed, Sink, Source};
use std::alloc::Global;
use sto_part::{Bytes, Calls, NoMemory};

/// Bytes that are given in pieces of at most a size. The calls whose numbers, from 1, are told to fail take nothing and
/// raise the count of faults.
#[derive(Drop)]
pub struct MemSource {
    bytes: Bytes,
    at: usize,
    piece: u32,
    failing: Calls,
    call: u64,
    count: u64,
    ghost some: { 0 < piece },
    ghost place: { at ≤ length bytes.items },
}

impl MemSource {
    /// A source that has these bytes left and gives at most `piece` of them, at least 1, at a call.
    pub fn new(bytes: Bytes, piece: u32, failing: Calls) -> MemSource
        requires { 0 < piece }
        ensures left { drop result.at result.bytes.items ≡ bytes.items }
    {
        MemSource {
            bytes,
            at: 0,
            piece,
            failing,
            call: 0,
            count: 0,
        }
    }
}

impl Source for MemSource {
    ghost use Rattle.std.specs.Prelude.{Some};

    ghost left = { λ s. Some (drop s.at s.bytes.items) };

    ghost faults = { λ s. s.count };

    fn read(&mut self, buf: &mut [u8]) -> Result<usize, Failed>
        requires { 0 < length buf.old }
        ensures count { IfOk result (λ n. n ≤ length buf.new) }
        ensures taken { IfOk result (λ n. drop self.old.at self.old.bytes.items ≡ take n buf.new ++ drop self.new.at self.new.bytes.items) }
        ensures end { IfOk result (λ n. n ≡ 0 → drop self.new.at self.new.bytes.items ≡ []) }
        ensures nothing { OnErr result (drop self.old.at self.old.bytes.items ≡ drop self.new.at self.new.bytes.items) }
        ensures steady { OnOk result (self.new.count ≡ self.old.count) }
        ensures cause { OnErr result (Rose self.old.count self.new.count) }
        ensures exact { IsErr result ↔ Contains self.old.failing.items (min (self.old.call + 1) (2 ^ 64 - 1)) }
    {
        self.call = self.call.saturating_add(1);
        if self.failing.as_slice().contains(&self.call) {
            self.count = self.count.saturating_add(1);
            return Err(Failed);
        }
        let taken = give(self.bytes.as_slice(), self.at, buf, self.piece as usize);
        self.at += taken;
        Ok(taken)
    }
}

/// Bytes that are taken in pieces of at most a size, up to a room. The calls whose numbers, from 1, are told to fail, and
/// those that find no room left, take nothing and raise the count of faults.
#[derive(Drop)]
pub struct MemSink {
    bytes: Bytes,
    room: u32,
    piece: u32,
    failing: Calls,
    call: u64,
    count: u64,
    ghost some: { 0 < piece },
    ghost reserved: { room ≤ bytes.spare },
    ghost few: { length bytes.items + room < 2 ^ 32 },
}

impl MemSink {
    /// A sink that holds nothing and takes at most `piece` bytes, at least 1, at a call. It takes its room at once.
    pub fn new(alloc: Global, room: u32, piece: u32, failing: Calls) -> Result<MemSink, NoMemory>
        requires { 0 < piece }
        ensures empty { IfOk result (λ s. s.bytes.items ≡ []) }
        ensures room { IfOk result (λ s. s.room ≡ room) }
    {
        let mut bytes = Bytes::new(alloc);
        bytes.reserve(room)?;
        Ok(MemSink {
            bytes,
            room,
            piece,
            failing,
            call: 0,
            count: 0,
        })
    }

    /// The bytes that it holds.
    pub fn held(&self) -> &[u8]
        ensures { result.now ≡ self.now.bytes.items }
    {
        self.bytes.as_slice()
    }
}

impl Sink for MemSink {
    ghost use Rattle.std.specs.Prelude.{Some};

    ghost held = { λ s. Some s.bytes.items };

    ghost faults = { λ s. s.count };

    fn write(&mut self, bytes: &[u8]) -> Result<usize, Failed>
        requires { 0 < length bytes.now }
        ensures some { IfOk result (λ n. 0 < n) }
        ensures count { IfOk result (λ n. n ≤ length bytes.now) }
        ensures gained { IfOk result (λ n. self.new.bytes.items ≡ self.old.bytes.items ++ take n bytes.now) }
        ensures nothing { OnErr result (self.new.bytes.items ≡ self.old.bytes.items) }
        ensures steady { OnOk result (self.new.count ≡ self.old.count) }
        ensures cause { OnErr result (Rose self.old.count self.new.count) }
        ensures exact { IsErr result ↔ (Contains self.old.failing.items (min (self.old.call + 1) (2 ^ 64 - 1)) ⊎ (self.old.room ≡ 0)) }
    {
        self.call = self.call.saturating_add(1);
        if self.failing.as_slice().contains(&self.call) {
            self.count = self.count.saturating_add(1);
            return Err(Failed);
        }
        if self.room == 0 {
            self.count = self.count.saturating_add(1);
            return Err(Failed);
        }
        let taken = bytes.len().min(self.room as usize).min(self.piece as usize);
        self.bytes.extend_spare(&bytes[..taken]);
        self.room -= taken as u32;
        Ok(taken)
    }
}
