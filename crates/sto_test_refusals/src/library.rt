//! What a worker of the library and a store do not answer.
ghost use Rattle.std.specs.Prelude.{◌≡◌, ◌<◌, ◌≤◌, ◌+◌, ◌^◌, ℕ, pos, List, [], ◌∷◌, length, Ok, Err};
ghost use Rattle.sto_model.specs.Run.{State};
ghost use Rattle.sto_history.specs.Done.{HaveHistory};
ghost use Rattle.sto_action.specs.Progs.{Prog};
ghost use Rattle.sto_action.specs.declared.short_reply.ShortReply.TheVariants.{Value};
ghost use Rattle.sto_action.specs.Atomic.{HasLed};
ghost use Rattle.sto_action.specs.declared.cause.AbortCause.{AbortCause};
ghost use Rattle.sto_action.specs.declared.cause.AbortCause.TheVariants.{Locked, Changed};
ghost use Rattle.sto_action.specs.declared.outcome.Done.{Done};
ghost use Rattle.sto_action.specs.declared.outcome.Done.TheVariants.{Gave, Cancelled};
ghost use Rattle.sto_action.specs.declared.outcome.TransactionError.{TransactionError};
ghost use Rattle.sto_action.specs.declared.outcome.TransactionError.TheVariants.{Busy, Worn};
ghost use Rattle.sto_shared_store.specs.Working.{AreRowsAfter};
ghost use Rattle.sto_library.specs.declared.store.CloseError.TheVariants.{Missing};
ghost use Rattle.sto_library.specs.declared.store.LookError.TheVariants as look_error;
ghost use Rattle.sto_library.specs.Values.{Stored, Working};
ghost use Rattle.sto_library.specs.Closings.{ComesBack};
ghost use Rattle.sto_library.specs.Looks.{HasLooked};
ghost use Rattle.sto_library.specs.Tasks.{AreAllDone, HasFailed};
ghost use Rattle.sto_library.specs.declared.task.TaskError.TheVariants.{NoWorker};
ghost use Rattle.sto_test_premises.specs.Adding.{box, valid};
ghost use Rattle.sto_test_refusals.specs.Found.{HasFoundElsewhere, HasFoundFree, HasFoundLocked, object_of};
ghost use Rattle.sto_test_refusals.specs.Runs.{HasRun, AlwaysGives, gets, gives_up, shapes, unused, has_read, has_added, opening_rows, first_worker, second_worker, rows_with};

use sto_library::{Task, TxType};

/// What `run` of a worker does not answer.
pub fn not_run<T: TxType, A, E>()
    // `Busy`, where fewer attempts were begun than it has tries, ...
    ensures busy_after_fewer_starts { (before after : Working T) (most told : ℕ) (p : Prog E A) (last : AbortCause)
        → HasRun T.TxType before after most p (Err (Busy told last))
        → after.seat.me.0.view.starts < before.seat.me.0.view.starts + 2 ^ 16 → ⊥ }
    // ... or with another number of tries; ...
    ensures busy_by_other_tries { (before after : Working T) (most told : ℕ) (p : Prog E A) (last : AbortCause)
        → HasRun T.TxType before after most p (Err (Busy told last)) → (told ≡ 2 ^ 16 → ⊥) → ⊥ }
    // ... by an object of which the last attempt found nothing; ...
    ensures busy_by_other_object { (before after : Working T) (most told : ℕ) (p : Prog E A) (last : AbortCause)
        → HasRun T.TxType before after most p (Err (Busy told last))
        → HasFoundElsewhere (T.meaning before.words.ty) after.seat.me.0.view (object_of last) → ⊥ }
    // ... by a lock, where that found what was free, and by a change, where it found what was locked.
    ensures busy_by_lock { (before after : Working T) (most told object : ℕ) (p : Prog E A)
        → HasRun T.TxType before after most p (Err (Busy told (Locked object))) → HasFoundFree after.seat.me.0.view → ⊥ }
    ensures busy_by_change { (before after : Working T) (most told object : ℕ) (p : Prog E A)
        → HasRun T.TxType before after most p (Err (Busy told (Changed object))) → HasFoundLocked after.seat.me.0.view → ⊥ }
    // That its code came to an end, where no attempt was begun.
    ensures ended_after_no_start { (before after : Working T) (most : ℕ) (p : Prog E A) (done : Done A E) → HasRun T.TxType before after most p (Ok done)
        → after.seat.me.0.view.starts ≡ before.seat.me.0.view.starts → ⊥ }
    // `Worn`, with tickets left.
    ensures worn_with_tickets_left { (before after : Working T) (most : ℕ) (p : Prog E A) → HasRun T.TxType before after most p (Err Worn)
        → (after.left ≡ 0 → ⊥) → ⊥ }
    // That code was given up, for any reason, which always gives a value.
    ensures cancelled { (before after : Working T) (most : ℕ) (p : Prog E A) (reason : E) → HasRun T.TxType before after most p (Ok (Cancelled reason))
        → AlwaysGives p → ⊥ }
    // 1 as what a get of a box answers that holds 0, where nothing was written.
    ensures other_value { (tries left most : ℕ) → HasLed box unused has_read tries left shapes most (gets {E = E}) (Ok (Gave (Value (pos 1)))) → ⊥ }
    // 1 as the reason of code that is given up for what a get of the box answers.
    ensures other_reason { (tries left most : ℕ) → HasLed box unused has_read tries left shapes most (gives_up {A = A}) (Ok (Cancelled (Value (pos 1)))) → ⊥ }
{}

/// What `look` at a store does not answer.
pub fn not_looked<T: TxType, A, E>()
    // That no worker rests, where one does.
    ensures workers { (old new : Stored T) (most : ℕ) (p : Prog E A) → HasLooked T.TxType old new most p (Err look_error.NoWorker) → (old.views ≡ [] → ⊥) → ⊥ }
    // Anything else, where none does.
    ensures done { (old new : Stored T) (most : ℕ) (p : Prog E A) (d : Done A E) → HasLooked T.TxType old new most p (Ok d) → old.views ≡ [] → ⊥ }
    ensures unrun { (old new : Stored T) (most : ℕ) (p : Prog E A) (e : TransactionError) → HasLooked T.TxType old new most p (Err (look_error.Transaction e))
        → old.views ≡ [] → ⊥ }
    // That others were in the way, where no worker has begun anything.
    ensures busy_after_no_start { (old new : Stored T) (most told : ℕ) (p : Prog E A) (last : AbortCause)
        → HasLooked T.TxType old new most p (Err (look_error.Transaction (Busy told last))) → new.views ≡ old.views → ⊥ }
{}

/// What `run_tasks` of a store does not answer.
pub fn not_done<T: TxType, K: Task<T>>()
    // Another number of answers than there are tasks.
    ensures answers { (old new : Stored T) (tasks : List K) (outs : List K.Out) → AreAllDone old new K.gives tasks outs
        → (length outs ≡ length tasks → ⊥) → ⊥ }
    // An answer that its task does not give, whatever its worker did.
    ensures other_answer { (old new : Stored T) (task : K) (out : K.Out) → AreAllDone old new K.gives (task ∷ []) (out ∷ [])
        → ((before after : Working T) → K.gives task before after out → ⊥) → ⊥ }
    // What it answers, where a worker is lost.
    ensures lost_worker { (old new : Stored T) (tasks : List K) (outs : List K.Out) → AreAllDone old new K.gives tasks outs
        → (length new.views ≡ length old.views → ⊥) → ⊥ }
    // That too few workers rest, where there is one for each task.
    ensures no_worker { (old new : Stored T) (many : ℕ) → HasFailed NoWorker many old new → many ≤ length old.views → ⊥ }
{}

/// What `close` of a store does not answer.
pub fn not_closed<T: TxType>()
    // The rows that it was opened with, where its worker has committed another value: they are not those after all commits, ...
    ensures opening_rows { AreRowsAfter valid box (has_added ∷ []) opening_rows → ⊥ }
    // ... and no serial history of what the worker did ends with them.
    ensures opening_history { HaveHistory box (has_added ∷ []) opening_rows → ⊥ }
    // Any other rows than with what it added.
    ensures other_rows { (rows : State) → AreRowsAfter valid box (has_added ∷ []) rows → (rows ≡ rows_with 1 → ⊥) → ⊥ }
    // The rows after one commit, where each of two workers has made one.
    ensures lost_commit { HaveHistory box (first_worker ∷ second_worker ∷ []) (rows_with 1) → ⊥ }
    // That a worker is missing, where all rest.
    ensures missing { (s store : Stored T) → ComesBack s (Missing store) → length s.views ≡ s.words.passes → ⊥ }
{}
