//! How a call must end.
use crate::calls::Called;

/// The status of a call, and what it writes.
#[derive(Clone, Copy)]
pub struct Ending<'a> {
    pub status: u8,
    pub out: &'a str,
    pub line: &'a str,
}

impl Ending<'_> {
    /// Whether the call ended so.
    pub fn is_of(&self, called: &Called) -> bool {
        called.status == self.status
            && called.out.as_slice() == self.out.as_bytes()
            && called.line.as_slice() == self.line.as_bytes()
    }
}
