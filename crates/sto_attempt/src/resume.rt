//! An attempt that waits: its body was at its end, and is given more to do.
ghost use Rattle.std.specs.Prelude.{◌≡◌};
ghost use Rattle.sto_core.specs.declared.view.View.{View};
ghost use Rattle.sto_attempt.specs.Attempts.{IsOwnLog, Waits, HasResumed};

use crate::attempt::Attempt;
use std::alloc::Global;
use std::mem;
use sto_attempt_log::Turn;
use sto_model::Body;
use sto_part::NoMemory;
use sto_type::TxType;

impl<T: TxType, B: Body> Attempt<'_, T, B> {
    /// Gives it another body, and answers the one before.
    pub fn replace_body(&mut self, body: B) -> B
        ensures old { result ≡ self.old.log.body }
        ensures new { self.new ≡ record self.old { log = record self.old.log { body = body } } }
    {
        mem::replace(&mut self.log.body, body)
    }

    /// Goes on where it waits: its last turn was `Ready` or ended with `Verdict::Read`, and its body was given more to do.
    ///
    /// It makes no event, so the pass stays as it was; the next call may extend. After `NoMemory` the attempt has ended.
    pub fn resume(&mut self, alloc: Global) -> Result<Turn, NoMemory>
        requires log { IsOwnLog T.TxType B.Body self.old }
        requires waits { (v : View) × Waits T.TxType B.Body self.old v }
        ensures { HasResumed T.TxType B.Body self.old self.new result }
    {
        let table = &mut *self.log.table;
        table.extension.extended = false;
        let reached = self.log.go_on(alloc)?;
        let (read_phase, turn) = self.lead(reached);
        self.read_phase = read_phase;
        Ok(turn)
    }
}
