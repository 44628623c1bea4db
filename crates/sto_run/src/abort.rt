//! Abort lines.
ghost use Rattle.std.specs.Prelude.{◌≡◌, ◌<◌, ◌^◌, List, length, map, IfOk};
ghost use Rattle.std.specs.List.{All, flat_map};
ghost use Rattle.std.specs.List.Sorted.{IsNonDecreasing};
ghost use Rattle.sto_lang.specs.Objects.{Declaration};
ghost use Rattle.sto_journal.specs.Journals.{home_pair, abort};
ghost use Rattle.sto_run.specs.PlainAborts.{Declarations, aborts_at, IsInRange};

use crate::rank::rank;
use std::alloc::Global;
use sto_attempt::Verdict;
use sto_journal::{AbortLine, Aborts, Cause};
use sto_part::{List, NoMemory};
use sto_transaction::Record;
use sto_type::Home;

/// The abort lines of aborted records, where these are the tickets of all writers and the homes of all parts.
pub(crate) fn abort_lines(
    alloc: Global,
    aborted: Vec<Record>,
    tickets: &[u64],
    homes: &[Home],
) -> Result<Aborts, NoMemory>
    requires rising { IsNonDecreasing tickets.now }
    requires few { length tickets.now < 2 ^ 32 }
    requires room { length aborted.items < 2 ^ 32 }
    requires parts { All (IsInRange (length homes.now)) aborted.items }
    ensures { IfOk result (λ lines. (ds : Declarations) → map (abort ds) lines.items
        ≡ flat_map (aborts_at ds (map home_pair homes.now) tickets.now) aborted.items) }
{
    let mut lines = List::new(alloc);
    for record in aborted {
        match record.verdict {
            Verdict::Locked { at, part } => {
                lines.push(AbortLine {
                    thread: record.thread,
                    position: record.position,
                    at: rank(tickets, at) as u32,
                    replies: record.replies,
                    cause: Cause::Locked {
                        home: homes[part as usize],
                    },
                })?;
            }
            Verdict::Changed { at, part, ticket } => {
                lines.push(AbortLine {
                    thread: record.thread,
                    position: record.position,
                    at: rank(tickets, at) as u32,
                    replies: record.replies,
                    cause: Cause::Changed {
                        home: homes[part as usize],
                        by: rank(tickets, ticket) as u32,
                    },
                })?;
            }
            _ => {}
        }
    }
    Ok(lines)
}
