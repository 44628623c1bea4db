//! What is told how far an exploration is.

/// Is told how far an exploration is. It changes nothing of it.
pub trait Meter {
    /// One more run was made.
    fn made(&self);
}

/// Counts nothing.
pub struct NoMeter;

impl Meter for NoMeter {
    fn made(&self) {}
}
