//! Layers below the programs, each beside what it is to do: records that are merged, trees, two threads that count in one word, and a
//! worker that sleeps until a job comes.
#![tactic(auto)]

mod counting;
mod merging;
mod trees;
mod waking;

use std::io;

fn main(rt: HostRuntime) -> io::Result<()> {
    merging::merge_all(&rt)?;
    trees::walk_all(&rt)?;
    counting::count(&rt, &rt)?;
    waking::wake_all(&rt, rt)
}
