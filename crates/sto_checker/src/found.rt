//! What is found of a report.

/// What is found of a report: it is lawful, or it goes wrong at this line, from 1.
#[derive(Clone, Copy, PartialEq, Eq)]
pub enum Found {
    Lawful,
    Not { line: u32 },
}
