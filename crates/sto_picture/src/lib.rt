//! Pictures of runs: what each event did, as lanes, bars, locks and arrows, in SVG.
#![tactic(auto)]

mod arrow;
mod attempt;
mod element;
mod frame;
mod lane;
mod measure;
mod place;
mod scene;
mod style;
mod told;
mod whole;

pub use scene::Scene;
pub use whole::{MOST_STEPS, picture};
