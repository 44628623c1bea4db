//! An attempt that is run to the end of its body, and on to its verdict.
ghost use Rattle.std.specs.Prelude.{◌≡◌, IfOk, OnOk};
ghost use Rattle.sto_model.specs.Run.{Behaviour};
ghost use Rattle.sto_core.specs.declared.view.View.{View};
ghost use Rattle.sto_attempt.specs.Attempts.{heard};
ghost use Rattle.sto_transaction.specs.Resting.{IsAtRest};
ghost use Rattle.sto_transaction.specs.Machines.{Commits, HasEnded};
ghost use Rattle.sto_interactive.specs.Waiting.{IsWaiting, IsEnd, HasCome, HasRunOn, HearsMore};

use std::alloc::Global;
use sto_attempt::{Attempt, AttemptLists, Ready, Turn};
use sto_core::Cells;
use sto_model::Body;
use sto_part::NoMemory;
use sto_transaction::FinishedAttempt;
use sto_type::TxType;

/// Goes on from where the attempt waits, up to the end of its body.
pub(crate) fn run_on<T: TxType, B: Body, C: Cells<T>>(
    alloc: Global,
    attempt: &mut Attempt<'_, T, B>,
    cells: &mut C,
) -> Result<Turn, NoMemory>
    requires { (ty : T) × (f : Behaviour) × (begun : View) × IsAtRest (T.meaning ty) (T.sizes ty) begun
        × IsWaiting T.TxType B.Body ty f attempt.old begun (C.view cells.old) }
    ensures come { (ty : T) (f : Behaviour) (begun : View) → IsAtRest (T.meaning ty) (T.sizes ty) begun
        → IsWaiting T.TxType B.Body ty f attempt.old begun (C.view cells.old)
        → HasRunOn T.TxType B.Body (C.passes cells.old) ty f result attempt.new begun (C.view cells.new) }
    ensures end { IfOk result IsEnd }
    ensures heard { OnOk result (HearsMore (heard attempt.old) (heard attempt.new)) }
    ensures same { C.same cells.old cells.new }
{
    let turn = attempt.resume(alloc)?;
    step_on(alloc, attempt, cells, turn)
}

// Steps the attempt up to the end of its body.
fn step_on<T: TxType, B: Body, C: Cells<T>>(
    alloc: Global,
    attempt: &mut Attempt<'_, T, B>,
    cells: &mut C,
    turn: Turn,
) -> Result<Turn, NoMemory>
    requires { (ty : T) × (f : Behaviour) × (begun : View) × IsAtRest (T.meaning ty) (T.sizes ty) begun
        × HasCome T.TxType B.Body (C.passes cells.old) ty f turn attempt.old begun (C.view cells.old) }
    ensures come { (ty : T) (f : Behaviour) (begun : View) → IsAtRest (T.meaning ty) (T.sizes ty) begun
        → HasCome T.TxType B.Body (C.passes cells.old) ty f turn attempt.old begun (C.view cells.old)
        → HasRunOn T.TxType B.Body (C.passes cells.old) ty f result attempt.new begun (C.view cells.new) }
    ensures end { IfOk result IsEnd }
    ensures heard { OnOk result (HearsMore (heard attempt.old) (heard attempt.new)) }
    ensures same { C.same cells.old cells.new }
{
    let mut turn = turn;
    while let Turn::More = turn {
        turn = attempt.step(alloc, cells)?;
    }
    Ok(turn)
}

/// Makes the events of a commit, up to its verdict, and puts the attempt's table back to the lists.
pub(crate) fn finish<T: TxType, B: Body, C: Cells<T>>(
    ready: Ready<'_, T, B>,
    cells: &mut C,
    lists: &mut AttemptLists,
) -> FinishedAttempt<B>
    requires { (ty : T) × (f : Behaviour) × (begun : View) × IsAtRest (T.meaning ty) (T.sizes ty) begun
        × Commits T.meaning T.valid T.sizes B.script B.then B.left B.may_ask (C.passes cells.old) ty f ready begun (C.view cells.old) }
    ensures ended { (ty : T) (f : Behaviour) (begun : View) → IsAtRest (T.meaning ty) (T.sizes ty) begun
        → Commits T.meaning T.valid T.sizes B.script B.then B.left B.may_ask (C.passes cells.old) ty f ready.entry begun (C.view cells.old)
        → HasEnded T.meaning T.valid T.sizes B.script B.then B.left B.may_ask (C.passes cells.old) ty f result begun (C.view cells.new) }
    ensures replies { result.replies ≡ ready.entry.log.table.replies }
    ensures same { C.same cells.old cells.new }
{
    let mut ready = ready;
    loop {
        if let Some(verdict) = ready.step(cells) {
            let heard = ready.end(lists);
            return FinishedAttempt {
                body: heard.body,
                replies: heard.replies,
                verdict,
            };
        }
    }
}
