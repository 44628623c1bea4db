//! The worked cases: their scripts, their records and what they leave.
use crate::merging::typed::add;
use std::alloc::Global;
use sto_attempt::Verdict;
use sto_part::NoMemory;
use sto_transaction::Record;

/// A worked case.
#[derive(Clone, Copy)]
pub(crate) enum Case {
    /// Two transactions add 1 to one box, and the first to read loses: it drops ticket 2, and writes with ticket 3.
    LostUpdate,
    /// A read that ends after a writer has written with ticket 2, as of the number before it: ticket 1 is dropped.
    LateRead,
    /// Two transactions each read what the other writes: the second to write drops ticket 2, and writes with ticket 3.
    WriteSkew,
    /// A take that another transaction with ticket 3 leaves too little for: its second attempt only reads, as of that ticket. The
    /// first two are dropped.
    PredicateBroken,
}

impl Case {
    /// The script whose run the records are of.
    pub(crate) fn script(self) -> &'static str {
        match self {
            Case::LostUpdate => {
                "box a 0\nthread\nbegin\nx = get a\ny = sum x 1\nset a y\ncommit\nthread\nbegin\nx = get a\ny = sum x 1\nset a y\ncommit\n"
            }
            Case::LateRead => {
                "box a 0\nbox b 5\nthread\nbegin\nx = get b\ncommit\nthread\nbegin\nset a 1\ncommit\n"
            }
            Case::WriteSkew => {
                "box x 1\nbox y 1\nthread\nbegin\np = get x\nq = get y\nset x 0\ncommit\nthread\nbegin\np = get x\nq = get y\nset y 0\ncommit\n"
            }
            Case::PredicateBroken => {
                "counter c 6\nthread\nbegin\ntake c 5\ncommit\nthread\nbegin\nadd c -3\ncommit\n"
            }
        }
    }

    /// The value that each object is left with.
    pub(crate) fn left(self) -> &'static [i64] {
        match self {
            Case::LostUpdate => &[2],
            Case::LateRead => &[1, 5],
            Case::WriteSkew => &[0, 0],
            Case::PredicateBroken => &[3],
        }
    }

    /// The records of all attempts, those of a thread in their order.
    pub(crate) fn records(self, alloc: Global) -> Result<Vec<Record>, NoMemory> {
        match self {
            Case::LostUpdate => lost_update(alloc),
            Case::LateRead => late_read(alloc),
            Case::WriteSkew => write_skew(alloc),
            Case::PredicateBroken => predicate_broken(alloc),
        }
    }
}

// Part 0 was found changed.
fn changed(at: u64, ticket: u64) -> Verdict {
    Verdict::Changed {
        at,
        part: 0,
        ticket,
    }
}

fn wrote(ticket: u64) -> Verdict {
    Verdict::Wrote { ticket }
}

fn lost_update(alloc: Global) -> Result<Vec<Record>, NoMemory> {
    let mut records = Vec::new(alloc);
    add(&mut records, alloc, 0, "0 ok", changed(0, 1))?;
    add(&mut records, alloc, 0, "1 ok", wrote(3))?;
    add(&mut records, alloc, 1, "0 ok", wrote(1))?;
    Ok(records)
}

fn late_read(alloc: Global) -> Result<Vec<Record>, NoMemory> {
    let mut records = Vec::new(alloc);
    add(&mut records, alloc, 1, "ok", wrote(2))?;
    add(&mut records, alloc, 0, "5", Verdict::Read { at: 1 })?;
    Ok(records)
}

fn write_skew(alloc: Global) -> Result<Vec<Record>, NoMemory> {
    let mut records = Vec::new(alloc);
    add(&mut records, alloc, 1, "1 1 ok", changed(0, 1))?;
    add(&mut records, alloc, 1, "0 1 ok", wrote(3))?;
    add(&mut records, alloc, 0, "1 1 ok", wrote(1))?;
    Ok(records)
}

fn predicate_broken(alloc: Global) -> Result<Vec<Record>, NoMemory> {
    let mut records = Vec::new(alloc);
    add(&mut records, alloc, 0, "yes", changed(1, 3))?;
    add(&mut records, alloc, 0, "no", Verdict::Read { at: 3 })?;
    add(&mut records, alloc, 1, "ok", wrote(3))?;
    Ok(records)
}
