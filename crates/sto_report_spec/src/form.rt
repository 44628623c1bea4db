//! The two forms of a report.

/// The form of a report: lines for people, or one JSON object for programs.
#[derive(Clone, Copy, PartialEq, Eq, Debug)]
pub enum ReportForm {
    Text,
    Json,
}
