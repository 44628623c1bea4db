//! Scenes of several passes over plain words, event by event.
//!
//! Each function of a scene makes some events of one pass and says in its contract which state they leave, so a call that is left
//! out, changed or made in another order is refused. Tests in a crate of their own play the scenes to their ends.
#![tactic(auto)]

mod committing;
mod extending;
mod loading;

pub use committing::{
    Always, both_draw, first_fails, first_gives_up, first_reads, first_tries_again, other_commits,
    other_draws, other_reads, second_commits,
};
pub use extending::{
    close_both, commits_further, draws_further, goes_on, other_writes, reads_later, rests_on_read,
};
pub use loading::{first_loads, first_takes, other_adds, other_draws_sum};
