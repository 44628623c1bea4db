//! The run of a generated file, whose transactions are made when they are run.
#![tactic(auto)]

mod body;
mod file;
mod run;
mod text;

pub use body::GeneratedBody;
pub use file::GeneratedFile;
pub use run::run_generated;
pub use text::summary;
