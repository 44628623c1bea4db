//! A script thread, as far as it has come.
ghost use Rattle.std.specs.Prelude.{◌≡◌, ◌≤◌, ◌<◌, ◌+◌, ◌↔◌, IsTrue, IfOk, OnOk, OnErr, length, None, Some, option_copied};
ghost use Rattle.sto_run_threads.specs.Plans.{transaction_count};

use crate::attempts::{Attempts, Stepped};
use crate::log::{RunLog, with_step};
use std::alloc::Global;
use std::mem;
use sto_attempt::Verdict;
use sto_core::Cells;
use sto_model::Replies;
use sto_part::{List, Naming, NoMemory};
use sto_trace::{Deed, Noting, Step, replies_past};
use sto_transaction::{AttemptLists, Record};

/// A script thread, of whose transactions the first so many have ended.
#[derive(Drop)]
pub(crate) struct Seat<M> {
    /// The attempt that runs.
    trial: Option<M>,
    /// How many transactions have ended.
    ended: u32,
    /// How many there are.
    count: u32,
    /// How many more attempts of the next one may be aborted.
    left: u32,
    /// How many attempts of each may be aborted.
    tries: u32,
    /// Of the attempts that have ended.
    pub(crate) records: Vec<Record>,
    /// What the attempts are lent, one after the other.
    memory: AttemptLists,
}

impl<M: Drop> Seat<M> {
    ghost use Rattle.sto_transaction.specs.Plain.{plain};
    ghost use Rattle.sto_run_steps.specs.Seated.{IsNew, IsSeated, IsOver, HasKept};
    ghost use Rattle.sto_run_steps.specs.Leading.{MakesEvent};
    ghost use Rattle.sto_run_steps.specs.Stages.{SitsAt, HasLess, HasNoMore, HasBegun, LogsStep};
    ghost use Rattle.sto_run_steps.specs.Logged.{answered, kept, heard_before, heard_after, end_after, last_record, HasLogged, IsLast};

    /// A thread with so many transactions, of which none has begun, and the memory that its attempts are lent.
    pub(crate) fn new(alloc: Global, count: u32, tries: u32, memory: AttemptLists) -> Seat<M>
        ensures { IsNew count tries result }
    {
        Seat {
            trial: None,
            ended: 0,
            count,
            left: tries,
            tries,
            records: Vec::new(alloc),
            memory,
        }
    }

    /// Whether it has ended, or stopped where its next transaction has used up its tries.
    pub(crate) fn is_over(&self) -> bool
        ensures { IsTrue result ↔ IsOver self.now }
    {
        self.ended == self.count || self.left == 0
    }

    /// The records of its attempts, and the memory that they were lent.
    pub(crate) fn into_parts(self) -> (Vec<Record>, AttemptLists)
        ensures { result.0 ≡ self.records }
    {
        let Seat {
            records,
            memory,
            ..
        } = self;
        (records, memory)
    }

    /// Makes the next event of the thread, which is not over, on its pass, and adds it to the steps where they are kept.
    pub(crate) fn logged_step<T: Naming, W: Attempts<T, M>, C: Cells<T>>(
        &mut self,
        work: &W,
        alloc: Global,
        thread: u32,
        pass: &mut Noting<C>,
        log: &mut RunLog,
    ) -> Result<(), NoMemory>
        requires ready { W.ready work.now }
        requires seated { SitsAt W.Attempts C.Cells work.now pass.old.cells thread self.old }
        requires going { IsOver self.old → ⊥ }
        ensures same { OnOk result (C.same pass.old.cells pass.new.cells) }
        ensures event { OnOk result (MakesEvent T.Naming C.Cells pass.old.cells pass.new.cells) }
        ensures seated { OnOk result (IsSeated (W.plan work.now) (W.fits work.now) (C.passes pass.old.cells) thread
            (C.view pass.new.cells) self.new) }
        ensures left { OnOk result (HasLess W.Attempts work.now self.old self.new) }
        ensures logged { OnOk result (LogsStep T.Naming W.Attempts C.Cells work.now thread pass.old.cells self.old log.old
            pass.new.cells self.new log.new) }
    {
        let position = self.ended + 1;
        let heard = self.heard(work);
        pass.deed = None;
        self.step(work, alloc, thread, pass)?;
        let Some(steps) = mem::replace(log, None) else {
            return Ok(());
        };
        let Some(deed) = pass.deed else {
            unreachable!()
        };
        let step = self.last_step(work, alloc, thread, position, heard, deed)?;
        *log = with_step(steps, step)?;
        Ok(())
    }

    // How many calls of the next attempt have been answered.
    fn heard<T: Naming, W: Attempts<T, M>>(&self, work: &W) -> u32
        ensures { result ≡ length (heard_before (W.heard work.now) self.now.trial) }
    {
        let Some(trial) = &self.trial else {
            return 0;
        };
        match work.replies(trial) {
            Some(replies) => replies.len(),
            None => 0,
        }
    }

    // What the attempt that has made the last event has been answered.
    fn replies<T: Naming, W: Attempts<T, M>>(&self, work: &W) -> Option<&Replies>
        ensures { answered (option_copied result) ≡ heard_after (W.heard work.now) self.now.trial (last_record self.now) }
    {
        if let Some(trial) = &self.trial {
            return work.replies(trial);
        }
        match self.records.last() {
            Some(record) => Some(&record.replies),
            None => None,
        }
    }

    // How the attempt that has made the last event has ended, if it has.
    fn end(&self) -> Option<Verdict>
        ensures { result ≡ end_after self.now.trial (last_record self.now) }
    {
        if self.trial.is_some() {
            return None;
        }
        match self.records.last() {
            Some(record) => Some(record.verdict),
            None => None,
        }
    }

    // The step that the thread has made, where so many calls had been answered before.
    fn last_step<T: Naming, W: Attempts<T, M>>(
        &self,
        work: &W,
        alloc: Global,
        thread: u32,
        position: u32,
        heard: u32,
        deed: Deed,
    ) -> Result<Step, NoMemory>
        ensures deed { IfOk result (λ step. step.deed ≡ deed) }
        ensures last { IfOk result (IsLast (W.heard work.now) thread position heard self.now) }
    {
        let replies = match self.replies(work) {
            Some(replies) => replies_past(replies, heard)?,
            None => List::new(alloc),
        };
        Ok(Step {
            thread,
            position,
            deed,
            replies,
            end: self.end(),
        })
    }

    /// Makes the next event of the thread, which is not over, on its pass. Where there is no memory, no record is added.
    pub(crate) fn step<T: Naming, W: Attempts<T, M>, C: Cells<T>>(
        &mut self,
        work: &W,
        alloc: Global,
        thread: u32,
        cells: &mut C,
    ) -> Result<(), NoMemory>
        requires ready { W.ready work.now }
        requires seated { SitsAt W.Attempts C.Cells work.now cells.old thread self.old }
        requires going { IsOver self.old → ⊥ }
        ensures same { C.same cells.old cells.new }
        ensures event { OnOk result (MakesEvent T.Naming C.Cells cells.old cells.new) }
        ensures seated { OnOk result (IsSeated (W.plan work.now) (W.fits work.now) (C.passes cells.old) thread (C.view cells.new)
            self.new) }
        ensures left { OnOk result (HasLess W.Attempts work.now self.old self.new) }
        ensures unmade { OnErr result (self.new.records.items ≡ self.old.records.items) }
    {
        let position = self.ended + 1;
        self.begin(work, alloc, thread)?;
        let Some(trial) = &mut self.trial else {
            unreachable!()
        };
        match work.step(alloc, trial, thread, position, cells, &mut self.memory)? {
            Stepped::More => Ok(()),
            Stepped::Ended { replies, verdict } => {
                self.clear();
                self.keep(Record {
                    thread,
                    position,
                    replies,
                    verdict,
                })
            }
        }
    }

    // No attempt runs. It stands alone, as `begin_next` does.
    #[inline(never)]
    fn clear(&mut self)
        ensures { self.new ≡ record self.old { trial = None } }
    {
        self.trial = None;
    }

    // Begins the next attempt where none runs.
    fn begin<T: Naming, W: Attempts<T, M>>(
        &mut self,
        work: &W,
        alloc: Global,
        thread: u32,
    ) -> Result<(), NoMemory>
        requires ready { W.ready work.now }
        requires counted { self.old.count ≡ transaction_count (W.plan work.now) thread }
        requires within { self.old.ended ≤ self.old.count }
        requires going { IsOver self.old → ⊥ }
        ensures kept { self.new ≡ record self.old { trial = self.new.trial } }
        ensures within { OnOk result (HasBegun W.Attempts work.now thread self.old self.new) }
        ensures left { OnOk result (HasNoMore W.Attempts work.now self.old self.new) }
    {
        if self.trial.is_none() {
            self.begin_next(work, alloc, thread)?;
        }
        Ok(())
    }

    // Begins the next attempt. It stands alone, since most events need none of the room that an attempt takes on the stack here.
    #[inline(never)]
    fn begin_next<T: Naming, W: Attempts<T, M>>(
        &mut self,
        work: &W,
        alloc: Global,
        thread: u32,
    ) -> Result<(), NoMemory>
        requires ready { W.ready work.now }
        requires counted { self.old.count ≡ transaction_count (W.plan work.now) thread }
        requires within { self.old.ended ≤ self.old.count }
        requires going { IsOver self.old → ⊥ }
        requires idle { self.old.trial ≡ None }
        ensures kept { self.new ≡ record self.old { trial = self.new.trial } }
        ensures within { OnOk result (HasBegun W.Attempts work.now thread self.old self.new) }
        ensures left { OnOk result (HasNoMore W.Attempts work.now self.old self.new) }
    {
        let trial = work.begin(alloc, thread, self.ended + 1, &mut self.memory)?;
        self.trial = Some(trial);
        Ok(())
    }

    // Keeps the record of an attempt of the next transaction: it has ended, or a try is used up.
    fn keep(&mut self, attempt: Record) -> Result<(), NoMemory>
        requires next { self.old.ended < self.old.count }
        requires again { 1 ≤ self.old.left }
        ensures kept { OnOk result (HasKept (plain attempt) self.old self.new) }
        ensures unmade { OnErr result (self.new.records.items ≡ self.old.records.items) }
    {
        match attempt.verdict {
            Verdict::Locked { .. } | Verdict::Changed { .. } => self.left -= 1,
            _ => {
                self.ended += 1;
                self.left = self.tries;
            }
        }
        match self.records.push(attempt) {
            Ok(()) => Ok(()),
            Err(_) => Err(NoMemory),
        }
    }
}
