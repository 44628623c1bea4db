//! Rows and pairs that C is told.
ghost use Rattle.std.specs.Prelude.{◌≡◌, ◌≢◌, ◌≤◌, ◌++◌, [], length, map, drop, option_map, IfSome, IfNone, OnOk, IfOk, IfErr};
ghost use Rattle.sto_c.specs.declared.status.Status.TheVariants.{NoRoom};
ghost use Rattle.sto_c.specs.Crossing.{pair_out, pairs_of, row_out, rows_out};
ghost use Rattle.sto_c.specs.Steps.{HasCopied, HasToldPairs};

use crate::calls::last_of;
use crate::content::WorkerHandle;
use crate::crossing::{PairOut, RowOut, RowsOut};
use crate::status::Status;
use std::alloc::Global;
use sto_model::{Pairs, Reply, Rows, State};
use sto_part::{List, NoMemory};

// Copies pairs to the front of a slice that has room for them.
fn copy_pairs(pairs: &Pairs, out: &mut [PairOut])
    requires { length pairs.now.items ≤ length out.old }
    ensures { out.new ≡ map pair_out pairs.now.items ++ drop (length pairs.now.items) out.old }
{
    for place in 0..pairs.len() {
        out[place as usize] = PairOut::of(pairs.get(place));
    }
}

// The pairs of a reply, if it has some.
fn pairs_of(reply: Option<&Reply>) -> Option<&Pairs>
    ensures some { IfSome result (λ pairs. pairs.now.items ≡ pairs_of (option_map (λ r. r.now) reply.entry)) }
    ensures none { IfNone result (pairs_of (option_map (λ r. r.now) reply.entry) ≡ []) }
{
    let Some(reply) = reply else {
        return None;
    };
    match reply {
        Reply::Pairs(pairs) => Some(pairs),
        Reply::Done
        | Reply::Value(_)
        | Reply::Flag(_)
        | Reply::Absent
        | Reply::Full
        | Reply::Range => None,
    }
}

// Copies pairs where they have room.
fn tell_pairs(pairs: &Pairs, out: &mut [PairOut], count: &mut usize) -> Result<(), Status>
    ensures copied { HasCopied (map pair_out pairs.now.items) out.old result out.new count.new }
    ensures room { IfErr result (λ why. why ≡ NoRoom) }
{
    *count = pairs.len() as usize;
    if out.len() < *count {
        return Err(Status::NoRoom);
    }
    copy_pairs(pairs, out);
    Ok(())
}

/// Copies the pairs of the last reply, where they have room. Any other reply has none.
pub(crate) fn last_pairs(
    held: &WorkerHandle,
    out: &mut [PairOut],
    count: &mut usize,
) -> Result<(), Status>
    ensures told { HasToldPairs out.old out.new count.old count.new held.now result held.now }
    ensures kept { IfErr result (λ why. why ≢ NoRoom → (out.new ≡ out.old) × (count.new ≡ count.old)) }
{
    let Some(replies) = held.worker.replies() else {
        return Err(Status::NoTransaction);
    };
    match pairs_of(last_of(replies)) {
        Some(pairs) => tell_pairs(pairs, out, count),
        None => {
            *count = 0;
            Ok(())
        }
    }
}

// Adds the rows of an object.
fn add_rows(out: &mut RowsOut, object: u32, rows: &Rows) -> Result<(), NoMemory>
    ensures { OnOk result (out.new.items ≡ out.old.items ++ map (row_out object) rows.now.items) }
{
    for place in 0..rows.len() {
        if out.len() == u32::MAX {
            return Err(NoMemory);
        }
        out.push(RowOut::of(object, rows.get(place)))?;
    }
    Ok(())
}

/// The rows of all objects, by object and key.
pub(crate) fn all_rows(alloc: Global, state: &State) -> Result<RowsOut, NoMemory>
    ensures { IfOk result (λ out. out.items ≡ rows_out 0 state.now.items) }
{
    let mut out = List::new(alloc);
    for object in 0..state.len() {
        add_rows(&mut out, object, state.get(object))?;
    }
    Ok(out)
}

/// Copies rows where they have room.
pub(crate) fn tell_rows(rows: &RowsOut, out: &mut [RowOut], count: &mut usize) -> Result<(), Status>
    ensures { HasCopied rows.now.items out.old result out.new count.new }
{
    let many = rows.len() as usize;
    *count = many;
    if out.len() < many {
        return Err(Status::NoRoom);
    }
    out[..many].copy_from_slice(rows.as_slice());
    Ok(())
}
