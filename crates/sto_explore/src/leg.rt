//! What a run is made of.

/// Turns that one thread had, one after the other.
#[derive(Clone, Copy)]
pub struct Leg {
    pub thread: u32,
    pub turns: u64,
    /// Whether the thread was over after them.
    pub over: bool,
}
