//! The text of traces, and their JSON: a line for each event of a run.
#![tactic(auto)]

mod attempts;
mod deed;
mod json;
mod names;
mod step;

pub use json::trace_json;
pub use names::Names;
pub use step::trace_text;
