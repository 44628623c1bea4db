//! What a source and a sink promise.
//!
//! Each has a count of faults that never falls and, where it tells that, the bytes that it has left or holds. One that
//! does not tell goes on not telling.
ghost use Rattle.std.specs.Prelude.{◌≡◌, ◌<◌, ◌≤◌, ℕ, List, Option, [], take, length, IfOk, OnOk, OnErr};
ghost use Rattle.sto_console.specs.Told.{Takes, Gains, AtEnd, Rose};

/// A call that was not done: it has taken nothing, and the count of faults rose.
#[derive(Clone, Copy, PartialEq, Eq)]
pub struct Failed;

/// Bytes that are read piece by piece.
pub trait Source {
    /// The bytes that are left, where the source tells them.
    ghost left: { Self → Option (List ℕ) };

    /// How often a call has failed.
    ghost faults: { Self → ℕ };

    /// Puts the next bytes at the front of a buffer that is not empty, and tells how many. 0 comes only at the end.
    fn read(&mut self, buf: &mut [u8]) -> Result<usize, Failed>
        requires { 0 < length buf.old }
        ensures count { IfOk result (λ n. n ≤ length buf.new) }
        ensures taken { IfOk result (λ n. Takes (left self.old) (left self.new) (take n buf.new)) }
        ensures end { IfOk result (λ n. n ≡ 0 → AtEnd (left self.new)) }
        ensures nothing { OnErr result (Takes (left self.old) (left self.new) []) }
        ensures steady { OnOk result (faults self.new ≡ faults self.old) }
        ensures cause { OnErr result (Rose (faults self.old) (faults self.new)) };
}

/// Where bytes are written piece by piece.
pub trait Sink {
    /// The bytes that are held, where the sink tells them.
    ghost held: { Self → Option (List ℕ) };

    /// How often a call has failed.
    ghost faults: { Self → ℕ };

    /// Takes the front of a piece that is not empty, at least one byte, and tells how many.
    fn write(&mut self, bytes: &[u8]) -> Result<usize, Failed>
        requires { 0 < length bytes.now }
        ensures some { IfOk result (λ n. 0 < n) }
        ensures count { IfOk result (λ n. n ≤ length bytes.now) }
        ensures gained { IfOk result (λ n. Gains (held self.old) (held self.new) (take n bytes.now)) }
        ensures nothing { OnErr result (Gains (held self.old) (held self.new) []) }
        ensures steady { OnOk result (faults self.new ≡ faults self.old) }
        ensures cause { OnErr result (Rose (faults self.old) (faults self.new)) };
}
