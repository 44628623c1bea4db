//! All script threads, each at its seat, with the words that their passes share.
ghost use Rattle.std.specs.Prelude.{◌≡◌, ◌<◌, length, true, false, IfOk, OnOk};
ghost use Rattle.std.specs.List.{All, flat_map};
ghost use Rattle.sto_run_threads.specs.Orders.{numbers_from};

use crate::attempts::Attempts;
use crate::log::RunLog;
use crate::seat::Seat;
use std::alloc::Global;
use sto_lang::Turns;
use sto_part::{Naming, NoMemory};
use sto_plain::At;
use sto_trace::Noting;

/// The words, with a pass for each script thread, the threads in the order of their passes, and the steps where they are kept.
#[derive(Drop)]
pub(crate) struct Stage<T: Naming, M> {
    /// The pass of the thread that had the last turn, over all words.
    pub(crate) pass: Noting<At<T>>,
    pub(crate) seats: Vec<Seat<M>>,
    pub(crate) log: RunLog,
}

impl<T: Naming, M: Drop> Stage<T, M> {
    ghost use Rattle.sto_run_steps.specs.Seated.{IsOverAt, AreOver};
    ghost use Rattle.sto_run_steps.specs.Turning.{entry_turns};
    ghost use Rattle.sto_run_steps.specs.Stages.{AreOn, TakesTurn, HasFewer, GoesOn, GoesRound};

    // Makes an event of the thread, where it is not over. It answers whether it did.
    fn turn<W: Attempts<T, M>>(
        &mut self,
        work: &W,
        alloc: Global,
        thread: u32,
    ) -> Result<bool, NoMemory>
        requires ready { W.ready work.now }
        requires seated { AreOn W.Attempts work.now self.old }
        requires inside { thread < length self.old.seats.items }
        ensures turn { OnOk result (TakesTurn T.Naming W.Attempts work.now thread self.old self.new) }
        ensures seated { OnOk result (AreOn W.Attempts work.now self.new) }
        ensures many { OnOk result (length self.new.seats.items ≡ length self.old.seats.items) }
        ensures made { IfOk result (λ made. made ≡ true → HasFewer W.Attempts work.now self.old self.new) }
        ensures over { IfOk result (λ made. made ≡ false → (self.new.seats.items ≡ self.old.seats.items)
            × IsOverAt thread self.old.seats.items) }
    {
        if self.seats[thread as usize].is_over() {
            return Ok(false);
        }
        self.pass.cells.pass = thread;
        let (pass, log) = (&mut self.pass, &mut self.log);
        self.seats[thread as usize].logged_step(work, alloc, thread, pass, log)?;
        Ok(true)
    }

    // Gives a thread as many events as an entry of a schedule says, or as many as it has.
    fn take_turns<W: Attempts<T, M>>(
        &mut self,
        work: &W,
        alloc: Global,
        turns: &Turns,
    ) -> Result<(), NoMemory>
        requires ready { W.ready work.now }
        requires seated { AreOn W.Attempts work.now self.old }
        requires inside { turns.now.thread < length self.old.seats.items }
        ensures turns { OnOk result (GoesOn T.Naming W.Attempts work.now (entry_turns turns.now) self.old self.new) }
    {
        for _ in 0..turns.steps {
            let made = self.turn(work, alloc, turns.thread)?;
            if !made {
                return Ok(());
            }
        }
        Ok(())
    }

    /// Steps the threads by a schedule.
    pub(crate) fn follow<W: Attempts<T, M>>(
        &mut self,
        work: &W,
        alloc: Global,
        schedule: &[Turns],
    ) -> Result<(), NoMemory>
        requires ready { W.ready work.now }
        requires seated { AreOn W.Attempts work.now self.old }
        requires inside { All (λ turns. turns.thread < length self.old.seats.items) schedule.now }
        ensures turns { OnOk result (GoesOn T.Naming W.Attempts work.now (flat_map entry_turns schedule.now) self.old self.new) }
    {
        for turns in schedule {
            self.take_turns(work, alloc, turns)?;
        }
        Ok(())
    }

    // Makes one event of each thread that is not over, in rising order. It answers whether there was one.
    fn round<W: Attempts<T, M>>(&mut self, work: &W, alloc: Global) -> Result<bool, NoMemory>
        requires ready { W.ready work.now }
        requires seated { AreOn W.Attempts work.now self.old }
        ensures turns { OnOk result (GoesOn T.Naming W.Attempts work.now (numbers_from 0 (length self.old.seats.items))
            self.old self.new) }
        ensures moved { IfOk result (λ moved. moved ≡ true → HasFewer W.Attempts work.now self.old self.new) }
        ensures over { IfOk result (λ moved. moved ≡ false → AreOver (length self.new.seats.items) self.new.seats.items) }
    {
        let mut moved = false;
        let count = self.seats.len() as u32;
        for thread in 0..count {
            let made = self.turn(work, alloc, thread)?;
            moved = moved || made;
        }
        Ok(moved)
    }

    /// Steps the threads in turn until all are over.
    pub(crate) fn finish<W: Attempts<T, M>>(
        &mut self,
        work: &W,
        alloc: Global,
    ) -> Result<(), NoMemory>
        requires ready { W.ready work.now }
        requires seated { AreOn W.Attempts work.now self.old }
        ensures turns { OnOk result (GoesRound T.Naming W.Attempts work.now self.old self.new) }
        ensures over { OnOk result (AreOver (length self.new.seats.items) self.new.seats.items) }
    {
        loop {
            let moved = self.round(work, alloc)?;
            if !moved {
                return Ok(());
            }
        }
    }
}
