//! Runs of files by a feeder, who sends the transactions to workers through queues, and the journals that they leave.
#![tactic(auto)]

mod all;
mod feeder;
mod file;
mod halves;
mod job;
mod jobs;
mod known;
mod order;
mod pass;
mod queue;
mod rule;
mod run;
mod server;
mod station;

pub use all::serve_all;
pub use feeder::feed;
pub use file::feed_threads;
pub use halves::serve_halves;
pub use job::{Job, Jobs};
pub use jobs::{jobs_of, queue_of};
pub use known::{Known, Side};
pub use order::{TransactionPlace, in_turn};
pub use pass::{JobPass, JobQueue};
pub use queue::{OpenedQueue, open_queue};
pub use rule::{Ends, Listed, Opening, QueueLaw, Sending, Taking};
pub use run::feed_file;
pub use server::{QueueWorker, ServingTeam, serve};
pub use station::{Stations, open_stations};
pub use sto_run::{Gate, NoGate};
