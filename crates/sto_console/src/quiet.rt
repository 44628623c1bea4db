//! A source and a sink over memory that never fail.
ghost use Rattle.std.specs.Prelude.{◌≡◌, ◌<◌, ◌≤◌, [], drop, length, IfOk, ◌+◌, ◌^◌, MatchOption, true, false};

use crate::give::give;
use crate::{Failed, Sink, Source};
use std::alloc::Global;
use sto_part::{Bytes, NoMemory};

/// Bytes that are given, each time as many as fit.
#[derive(Drop)]
pub struct QuietSource {
    bytes: Bytes,
    at: usize,
    ghost place: { at ≤ length bytes.items },
}

impl QuietSource {
    /// A source that has these bytes left.
    pub fn new(bytes: Bytes) -> QuietSource
        ensures left { drop result.at result.bytes.items ≡ bytes.items }
    {
        QuietSource { bytes, at: 0 }
    }
}

impl Source for QuietSource {
    ghost use Rattle.std.specs.Prelude.{Some};

    ghost left = { λ s. Some (drop s.at s.bytes.items) };

    ghost faults = { λ _. 0 };

    fn read(&mut self, buf: &mut [u8]) -> Result<usize, Failed> {
        let taken = give(self.bytes.as_slice(), self.at, buf, usize::MAX);
        self.at += taken;
        Ok(taken)
    }
}

/// Bytes that are held while they fit a room. What goes past it is taken and dropped, and from then on the sink does not
/// tell what it holds.
#[derive(Drop)]
pub struct QuietSink {
    bytes: Bytes,
    room: u32,
    dropped: bool,
    ghost reserved: { room ≤ bytes.spare },
    ghost few: { length bytes.items + room < 2 ^ 32 },
}

impl QuietSink {
    /// A sink that holds nothing, with this room, which it takes at once.
    pub fn new(alloc: Global, room: u32) -> Result<QuietSink, NoMemory>
        ensures empty { IfOk result (λ s. s.bytes.items ≡ []) }
        ensures room { IfOk result (λ s. s.room ≡ room) }
    {
        let mut bytes = Bytes::new(alloc);
        bytes.reserve(room)?;
        Ok(QuietSink {
            bytes,
            room,
            dropped: false,
        })
    }
}

impl QuietSink {
    /// The bytes that it holds, or None where it does not tell them: more was written than fits.
    pub fn held(&self) -> Option<&[u8]>
        ensures { MatchOption result (self.now.dropped ≡ true) (λ bytes. (self.now.dropped ≡ false) × (bytes.now ≡ self.now.bytes.items)) }
    {
        if self.dropped {
            None
        } else {
            Some(self.bytes.as_slice())
        }
    }
}

impl Sink for QuietSink {
    ghost use Rattle.std.specs.Prelude.{Some, None, if◌then◌else◌};

    ghost held = { λ s. if s.dropped then None else Some s.bytes.items };

    ghost faults = { λ _. 0 };

    fn write(&mut self, bytes: &[u8]) -> Result<usize, Failed> {
        if bytes.len() > self.room as usize {
            self.dropped = true;
        }
        if !self.dropped {
            self.bytes.extend_spare(bytes);
            self.room -= bytes.len() as u32;
        }
        Ok(bytes.len())
    }
}
