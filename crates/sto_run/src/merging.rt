//! The journal of a finished run.
ghost use Rattle.std.specs.Prelude.{◌≡◌, ◌<◌, ◌^◌, ℕ, List, length, map, IfOk};
ghost use Rattle.std.specs.List.{All};
ghost use Rattle.std.specs.List.Sorted.{IsNonDecreasing};
ghost use Rattle.sto_lang.specs.Objects.{Declaration};
ghost use Rattle.sto_serializability.specs.Merged.{aborts_from};
ghost use Rattle.sto_journal.specs.Journals.{home_pair, entry, abort};
ghost use Rattle.sto_transaction.specs.Plain.{plain};
ghost use Rattle.sto_run.specs.PlainAborts.{Declarations, IsInRange};
ghost use Rattle.sto_run.specs.PlainLines.{line_at, AreLines};
ghost use Rattle.sto_run.specs.Sorting.{IsSorted};

use crate::abort::abort_lines;
use crate::line::told;
use crate::order::{sort, sort_by_thread};
use crate::rank::sorted_tickets;
use crate::split::{Parted, part};
use std::alloc::{AllocError, Global};
use sto_journal::{Journal, Lines};
use sto_model::State;
use sto_part::{List, NoMemory};
use sto_transaction::Record;
use sto_type::Home;

/// The lines of sorted records.
fn lines_of(alloc: Global, ended: Vec<Record>, tickets: &[u64]) -> Result<Lines, NoMemory>
    requires rising { IsNonDecreasing tickets.now }
    requires few { length tickets.now < 2 ^ 32 }
    requires room { length ended.items < 2 ^ 32 }
    ensures { IfOk result (λ lines. map entry lines.items ≡ map (line_at tickets.now) ended.items) }
{
    let mut lines = List::new(alloc);
    for record in ended {
        lines.push(told(record, tickets))?;
    }
    Ok(lines)
}

/// Records in the order of the journal, aborted ones by thread, and the tickets of all writers.
#[derive(Drop)]
struct Sorted {
    tickets: Vec<u64>,
    parted: Parted,
}

fn arrange(alloc: Global, records: Vec<Record>) -> Result<Sorted, AllocError>
    ensures { IfOk result (λ s. IsSorted records.items s) }
{
    let tickets = sorted_tickets(alloc, &records)?;
    let Parted {
        mut ended,
        mut aborted,
    } = part(alloc, records)?;
    sort(&mut ended)?;
    sort_by_thread(&mut aborted)?;
    Ok(Sorted {
        tickets,
        parted: Parted { ended, aborted },
    })
}

/// The journal of the records of one finished run, with the home of each part and the state that the run left. Records of
/// one thread stand in the order in which they were made. Tickets are counted into writers, and a dropped one counts
/// nothing. After `NoMemory` the records and the state are given up.
pub fn merge(
    alloc: Global,
    records: Vec<Record>,
    homes: &[Home],
    state: State,
) -> Result<Journal, NoMemory>
    requires few { length records.items < 2 ^ 32 }
    requires parts { All (IsInRange (length homes.now)) records.items }
    ensures lines { IfOk result (λ j. AreLines (map plain records.items) (map entry j.lines.items)) }
    ensures aborts { IfOk result (λ j. (ds : Declarations) (threads : ℕ) → All (λ r. r.thread < threads) records.items
        → map (abort ds) j.aborts.items ≡ aborts_from ds (map home_pair homes.now) (map plain records.items) 0 threads) }
    ensures state { IfOk result (λ j. j.state ≡ state) }
{
    let Ok(Sorted { tickets, parted }) = arrange(alloc, records) else {
        return Err(NoMemory);
    };
    let Parted { ended, aborted } = parted;
    let lines = lines_of(alloc, ended, &tickets)?;
    let aborts = abort_lines(alloc, aborted, &tickets, homes)?;
    Ok(Journal {
        lines,
        aborts,
        state,
    })
}
