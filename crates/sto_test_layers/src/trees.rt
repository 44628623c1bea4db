//! Walks over ordered trees, call by call beside an ordered map of std, and the calls of some worked cases.
ghost use Rattle.std.specs.Prelude.{◌≤◌};

mod asking;
mod calls;
mod map;
mod once;
mod text;
mod walk;

use asking::answers_of;
use calls::{full_tree, least_and_greatest, one_leaf, split_and_repack};
use std::io;
use sto_model::Call;
use sto_tree::TTree;
use text::{replies_in, sizes_in};
use walk::{Tally, walk};

// How many calls a walk asks.
const CALLS: u32 = 10_000;

// Asks calls of an empty tree, each in a transaction of its own, and prints the replies, and what each noted and updated.
fn play(rt: &HostRuntime, name: &str, leaves: u32, calls: &[Call]) -> io::Result<()>
    requires some { 1 ≤ leaves }
    requires few { leaves ≤ 64 }
{
    let answers = answers_of(rt.alloc(), &TTree::new(leaves), calls)?;
    let replies = replies_in(rt.alloc(), answers.as_slice())?;
    let sizes = sizes_in(rt.alloc(), answers.as_slice())?;
    println!(rt; "{name}:{replies}\n{name}, items noted and parts updated:{sizes}")
}

// Walks over a tree, and prints what its calls were answered.
fn wander(rt: &HostRuntime, leaves: u32, span: u32) -> io::Result<()>
    requires some { 1 ≤ leaves }
    requires few { leaves ≤ 64 }
    requires span { 1 ≤ span }
    requires narrow { span ≤ 1000 }
{
    let Tally {
        wrong,
        full,
        absent,
        pairs,
    } = walk(rt.alloc(), leaves, span, CALLS)?;
    println!(rt;
        "{leaves} leaves: {CALLS} calls, {wrong} wrong, {full} full, {absent} none, {pairs} pairs"
    )
}

/// Plays the worked cases, and walks over trees of 1, 3 and 64 leaves.
pub(crate) fn walk_all(rt: &HostRuntime) -> io::Result<()> {
    play(rt, "full tree", 2, full_tree(rt.alloc())?.as_slice())?;
    play(
        rt,
        "split and repack",
        3,
        split_and_repack(rt.alloc())?.as_slice(),
    )?;
    play(rt, "one leaf", 1, one_leaf(rt.alloc())?.as_slice())?;
    play(
        rt,
        "least and greatest",
        3,
        least_and_greatest(rt.alloc())?.as_slice(),
    )?;
    wander(rt, 1, 8)?;
    wander(rt, 3, 24)?;
    wander(rt, 64, 500)
}
