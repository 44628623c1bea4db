//! What is sent through a queue.

/// What a worker is to do next.
#[derive(Clone, Copy, PartialEq, Eq, Debug)]
pub enum Job {
    /// To run a transaction of a script thread, at a position that is counted from 1.
    Run { thread: u32, position: u32 },
    /// To stop: no job follows.
    Last,
}

/// The jobs of a queue, in their order.
pub type Jobs = Vec<Job>;
