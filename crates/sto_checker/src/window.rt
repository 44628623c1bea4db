//! How many writers an attempt may have seen.
ghost use Rattle.std.specs.Prelude.{◌≡◌, ◌↔◌, ◌+◌, ◌-◌, ◌<◌, ◌≤◌, ◌^◌, length, map, replicate, IsTrue, IfOk, OnOk, Some, slice_get, []};
ghost use Rattle.sto_part.specs.Listed.{Listed};
ghost use Rattle.sto_report_spec.specs.LawfulAborts.{writers_before};
ghost use Rattle.sto_journal.specs.Journals.{entry};
ghost use Rattle.sto_checker.specs.Reading.{place_of};
ghost use Rattle.sto_checker.specs.Windows.{reached_in, window_after, at_position, window_at, with_more};

use crate::transaction::TransactionPlace;
use std::alloc::Global;
use sto_journal::{Ending, Line};
use sto_part::{List, NoMemory};

/// How many writers an attempt of a transaction may have seen: at least those up to the earlier entries of its thread, and at
/// most those before its own entry. Beside these, how many there are up to the entries of its thread until its own.
#[derive(Clone, Copy)]
pub(crate) struct Window {
    pub(crate) least: u32,
    pub(crate) most: u32,
    reached: u32,
}

/// The windows of the transactions of each thread, in rising position.
#[derive(Drop)]
pub(crate) struct Windows {
    threads: List<List<Window>>,
}

// How many writers there are before a transaction.
fn writers_before(line: &Line) -> u32
    ensures { result ≡ writers_before (entry line.now) line.now.end }
{
    match line.end {
        Ending::Commit => line.k.saturating_sub(1),
        Ending::Read | Ending::Cancel => line.k,
    }
}

// How many writers there are up to the last of some transactions of a thread.
fn reached_in(earlier: &[Window]) -> u32
    ensures { result ≡ reached_in (slice_get earlier.now (length earlier.now - 1)) }
{
    match earlier {
        [.., last] => last.reached,
        [] => 0,
    }
}

// The window of a transaction with this line, after those of its thread.
fn window_after(earlier: &[Window], line: &Line) -> Window
    ensures { result ≡ window_after earlier.now (entry line.now) }
{
    let least = reached_in(earlier);
    Window {
        least,
        most: writers_before(line),
        reached: least.max(line.k),
    }
}

// The window of the transaction at a position of a thread.
fn at_position(windows: &[Window], position: u32) -> Option<Window>
    ensures { result ≡ at_position position (Some windows.now) }
{
    let earlier = position.checked_sub(1)?;
    windows.get(earlier as usize).copied()
}

impl Windows {
    /// No window, for so many threads.
    pub(crate) fn new(alloc: Global, threads: u32) -> Result<Windows, NoMemory>
        ensures { IfOk result (λ windows. map (λ l. l.items) windows.threads.items ≡ replicate threads []) }
    {
        let mut made = List::new(alloc);
        for _ in 0..threads {
            let none = List::new(alloc);
            made.push(none)?;
        }
        Ok(Windows { threads: made })
    }

    /// Adds the window of the next transaction of a thread, by its line.
    pub(crate) fn add(&mut self, line: &Line) -> Result<(), NoMemory>
        requires thread { line.now.thread < length self.old.threads.items }
        requires room { (l : Listed Window) → slice_get self.old.threads.items line.now.thread ≡ Some l → length l.items + 1 < 2 ^ 32 }
        ensures { OnOk result ((l : Listed Window) → slice_get self.old.threads.items line.now.thread ≡ Some l
            → map (λ m. m.items) self.new.threads.items ≡ with_more (map (λ m. m.items) self.old.threads.items) line.now.thread
            (window_after l.items (entry line.now))) }
    {
        let windows = self.threads.get_mut(line.thread);
        let next = window_after(windows.as_slice(), line);
        windows.push(next)?;
        Ok(())
    }

    /// The window of a transaction; there is none exactly where the transaction was not added.
    pub(crate) fn at(&self, at: TransactionPlace) -> Option<Window>
        ensures { result ≡ window_at (map (λ l. l.items) self.now.threads.items) (place_of at) }
    {
        let windows = self.threads.as_slice().get(at.thread as usize)?;
        at_position(windows.as_slice(), at.position)
    }
}
