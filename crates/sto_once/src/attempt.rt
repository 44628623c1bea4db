//! One attempt of code, which is run once.
ghost use Rattle.std.specs.Prelude.{◌≡◌, ◌<◌, ℕ, false, None, Ok, Err, MatchOption};
ghost use Rattle.sto_model.specs.declared.call.Call.{Call};
ghost use Rattle.sto_core.specs.declared.view.View.{View};
ghost use Rattle.sto_transaction.specs.Resting.{IsAtRest};
ghost use Rattle.sto_action.specs.Progs.{IsTakenCall, Prog};
ghost use Rattle.sto_once.specs.Over.{OverKey};
ghost use Rattle.sto_once.specs.Attempts.{After, HasTriedOnce, IsStopCause, MayRun, StopNamesPart, is_aborted, key_of};

use crate::code::{Code, Halt};
use crate::over::OverLive;
use std::alloc::Global;
use sto_action::{AbortCause, Attempted, cause_of};
use sto_core::Cells;
use sto_interactive::{Live, StepError, StepLists};
use sto_model::Shapes;
use sto_part::NoMemory;
use sto_type::TxType;

/// Makes one attempt of code, which may draw one ticket. It answers what the code said at its end, or why it was aborted. The
/// pass is handed back.
pub(crate) fn attempt<T: TxType, K: Code, C: Cells<T>>(
    alloc: Global,
    ty: &T,
    shapes: &Shapes,
    cells: C,
    memory: &mut StepLists,
    code: &K,
) -> (
    C,
    Result<Attempted<Result<K::Out, Halt<K::Reason>>>, NoMemory>,
)
where
    K::Out: Drop,
    K::Reason: Drop,
    requires takes { (call : Call) → IsTakenCall shapes.now.items call → (T.meaning ty.now).takes call }
    requires rests { IsAtRest (T.meaning ty.now) (T.sizes ty.now) (C.view cells) }
    requires draws { 0 < (C.view cells).draws }
    ensures tried { HasTriedOnce (T.meaning ty.now) (T.sizes ty.now) (C.passes cells) (C.view cells) (C.view result.0)
        shapes.now.items (K.does code.now) result.1 }
    ensures same { C.same cells result.0 }
{
    let mut cells = cells;
    let live = match Live::begin(alloc, ty, &mut cells, memory) {
        Ok(live) => live,
        Err(NoMemory) => return (cells, Err(NoMemory)),
    };
    let (live, cells, stopped, said) = run_over(alloc, live, shapes, cells, code);
    let mut cells = cells;
    let tried = end(alloc, ty, live, &mut cells, memory, stopped, said);
    (cells, tried)
}

// Runs code over a transaction that has asked nothing.
fn run_over<'t, T: TxType, K: Code, C: Cells<T>>(
    alloc: Global,
    live: Live<'t, T>,
    shapes: &Shapes,
    cells: C,
    code: &K,
) -> (
    Live<'t, T>,
    C,
    Option<StepError>,
    Result<K::Out, Halt<K::Reason>>,
)
    requires { (ty : T) × (begun : View) × MayRun T.TxType (key_of ty begun cells shapes.now.items) live (C.view cells) }
    ensures ran { (ty : T) (begun : View) → MayRun T.TxType (key_of ty begun cells shapes.now.items) live.entry (C.view cells)
        → After T.TxType C.Cells (key_of ty begun cells shapes.now.items) (K.does code.now) result.2 result.3 result.0 (C.view result.1) }
    ensures same { C.same cells result.1 }
{
    let mut over = OverLive {
        live,
        cells,
        alloc,
        shapes,
        stopped: None,
    };
    let said = code.run(&mut over);
    let OverLive {
        live,
        cells,
        alloc: _alloc,
        shapes: _shapes,
        stopped,
    } = over;
    (live, cells, stopped, said)
}

// Ends a transaction by what its code said.
fn end<T: TxType, C: Cells<T>, A: Drop, E: Drop>(
    alloc: Global,
    ty: &T,
    live: Live<'_, T>,
    cells: &mut C,
    memory: &mut StepLists,
    stopped: Option<StepError>,
    said: Result<A, Halt<E>>,
) -> Result<Attempted<Result<A, Halt<E>>>, NoMemory>
    requires { (k : OverKey T C) × (p : Prog E A) × After T.TxType C.Cells k p stopped said live (C.view cells.old) × C.same k.start cells.old
        × (k.ty ≡ ty.now) }
    ensures tried { (k : OverKey T C) (p : Prog E A) → After T.TxType C.Cells k p stopped said live.entry (C.view cells.old)
        → C.same k.start cells.old → k.ty ≡ ty.now
        → HasTriedOnce (T.meaning k.ty) (T.sizes k.ty) (C.passes k.start) k.begun (C.view cells.new) k.shapes p result }
    ensures same { C.same cells.old cells.new }
{
    match stopped {
        Some(stop) => {
            live.give_back(memory);
            match stop_cause(ty, stop) {
                Some(cause) => Ok(Attempted::Aborted(cause)),
                None => Err(NoMemory),
            }
        }
        None => match said {
            Ok(value) => commit(alloc, ty, live, cells, memory, value),
            Err(halt) => cancel::<T, C, A, E>(alloc, live, memory, halt),
        },
    }
}

// Commits a transaction whose code gave a value.
fn commit<T: TxType, C: Cells<T>, A: Drop, E: Drop>(
    alloc: Global,
    ty: &T,
    live: Live<'_, T>,
    cells: &mut C,
    memory: &mut StepLists,
    value: A,
) -> Result<Attempted<Result<A, Halt<E>>>, NoMemory>
    requires { (k : OverKey T C) × (p : Prog E A) × After T.TxType C.Cells k p None (Ok value) live (C.view cells.old) × (k.ty ≡ ty.now) }
    ensures tried { (k : OverKey T C) (p : Prog E A) → After T.TxType C.Cells k p None (Ok value) live.entry (C.view cells.old)
        → k.ty ≡ ty.now → HasTriedOnce (T.meaning k.ty) (T.sizes k.ty) (C.passes cells.old) k.begun (C.view cells.new) k.shapes p result }
    ensures same { C.same cells.old cells.new }
{
    match live.commit(alloc, cells, memory) {
        Ok(ended) => {
            let cause = cause_of(ty, ended.verdict);
            memory.keep(ended);
            match cause {
                Some(cause) => Ok(Attempted::Aborted(cause)),
                None => Ok(Attempted::Said(Ok(value))),
            }
        }
        Err(NoMemory) => Err(NoMemory),
    }
}

// Gives up a transaction whose code gave it up, or asked what is not taken.
fn cancel<T: TxType, C: Cells<T>, A: Drop, E: Drop>(
    alloc: Global,
    live: Live<'_, T>,
    memory: &mut StepLists,
    halt: Halt<E>,
) -> Result<Attempted<Result<A, Halt<E>>>, NoMemory>
    requires { (k : OverKey T C) × (p : Prog E A) × (v : View) × After T.TxType C.Cells k p None (Err halt) live v }
    ensures { (k : OverKey T C) (p : Prog E A) (v : View) (passes : ℕ) → After T.TxType C.Cells k p None (Err halt) live.entry v
        → HasTriedOnce (T.meaning k.ty) (T.sizes k.ty) passes k.begun v k.shapes p result }
{
    match live.cancel(alloc, memory) {
        Ok(ended) => {
            memory.keep(ended);
            Ok(Attempted::Said(Err(halt)))
        }
        Err(NoMemory) => Err(NoMemory),
    }
}

// Why it was aborted, where it met an abort.
fn stop_cause<T: TxType>(ty: &T, stop: StepError) -> Option<AbortCause>
    requires { StopNamesPart (T.meaning ty.now) stop }
    ensures { MatchOption result (is_aborted stop ≡ false) (IsStopCause (T.meaning ty.now) stop) }
{
    match stop {
        StepError::Aborted(end) => cause_of(ty, end),
        StepError::Untaken | StepError::NoMemory => None,
    }
}
