//! The standard streams. They tell no bytes; nothing is known of what passes through them but their counts of faults.
ghost use Rattle.std.specs.Prelude.{◌≡◌};

use crate::{Failed, Sink, Source};
use std::io::{Print, Read, Stderr, Stdin, Stdout};

/// Standard input.
#[derive(Drop)]
pub struct StdSource {
    stdin: Stdin,
    count: u64,
}

impl StdSource {
    /// The standard input of the program.
    pub fn new(rt: &HostRuntime) -> StdSource {
        StdSource {
            stdin: rt.stdin(),
            count: 0,
        }
    }
}

impl Source for StdSource {
    ghost use Rattle.std.specs.Prelude.{None};

    ghost left = { λ _. None };

    ghost faults = { λ s. s.count };

    fn read(&mut self, buf: &mut [u8]) -> Result<usize, Failed> {
        match self.stdin.read(buf) {
            Ok(taken) => Ok(taken),
            Err(_) => {
                self.count = self.count.saturating_add(1);
                Err(Failed)
            }
        }
    }
}

#[derive(Clone, Copy)]
enum Stream {
    Output(Stdout),
    Error(Stderr),
}

/// Standard output or standard error.
#[derive(Drop)]
pub struct StdSink {
    stream: Stream,
    count: u64,
}

impl StdSink {
    /// The standard output of the program.
    pub fn output(rt: &HostRuntime) -> StdSink {
        StdSink {
            stream: Stream::Output(rt.stdout()),
            count: 0,
        }
    }

    /// The standard error of the program.
    pub fn error(rt: &HostRuntime) -> StdSink {
        StdSink {
            stream: Stream::Error(rt.stderr()),
            count: 0,
        }
    }
}

impl Sink for StdSink {
    ghost use Rattle.std.specs.Prelude.{None};

    ghost held = { λ _. None };

    ghost faults = { λ s. s.count };

    fn write(&mut self, bytes: &[u8]) -> Result<usize, Failed> {
        let outcome = match self.stream {
            Stream::Output(stdout) => stdout.write_some(bytes),
            Stream::Error(stderr) => stderr.write_some(bytes),
        };
        match outcome {
            Ok(taken) if taken > 0 => Ok(taken),
            _ => {
                self.count = self.count.saturating_add(1);
                Err(Failed)
            }
        }
    }
}
