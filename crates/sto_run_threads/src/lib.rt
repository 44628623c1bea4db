//! Runs of files on threads: workers that claim script threads, what they hand back, and how they are gathered.
#![tactic(auto)]

mod all;
mod file;
mod gate;
mod halves;
mod left;
mod one;
mod script;
mod turn;
mod work;
mod worker;
mod workload;

pub use all::{Worked, work_all};
pub use file::{FinishedRun, run_rest, run_threads};
pub use gate::{Gate, NoGate, SleepingGate};
pub use halves::{gather, work_halves};
pub use left::run_left;
pub use one::Work;
pub use script::run_script;
pub use turn::RetryTurn;
pub use work::FileWork;
pub use worker::{ScriptWorker, Team, work_alone};
pub use workload::{BorrowedFile, Workload};
