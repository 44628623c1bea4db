//! Runs by a schedule that are none.
ghost use Rattle.std.specs.Prelude.{◌≡◌, ℕ, suc, List, [], ◌∷◌, ◌++◌, Some};
ghost use Rattle.sto_core.specs.Core.{Core};
ghost use Rattle.sto_core.specs.History.{Contents};
ghost use Rattle.sto_core.specs.Opened.{opened_core};
ghost use Rattle.sto_trace.specs.declared.Step.{Step};
ghost use Rattle.sto_transaction.specs.declared.machine.Machine.{Machine};
ghost use Rattle.sto_script.specs.declared.body.ScriptBody.{ScriptBody};
ghost use Rattle.sto_store.specs.declared.objects.Objects.{Objects};
ghost use Rattle.sto_lang.specs.declared.file.Turns.{Turns};
ghost use Rattle.sto_journal.specs.declared.journal.Journal.{Journal};
ghost use Rattle.sto_run_steps.specs.Logged.{RunLog};
ghost use Rattle.sto_run_steps.specs.Proceeding.{heard_by};
ghost use Rattle.sto_run_steps.specs.Turning.{MakesOne};
ghost use Rattle.sto_run.specs.Traced.{IsRunFrom, IsTraceOf, of_objects};
ghost use Rattle.sto_test_program_refusals.specs.Inputs.{lost_update_file, second_first_file};
ghost use Rattle.sto_test_program_refusals.specs.Told.{made, plain};

/// What is no run of two threads with a transaction each, and what is no event.
pub fn no_run()
    // One without an event.
    ensures nothing { (journal : Journal) (homes : List (ℕ × ℕ)) → IsTraceOf lost_update_file 64 journal homes (Some []) → ⊥ }
    // One of one event.
    ensures one_event { (journal : Journal) (homes : List (ℕ × ℕ)) (step : Step) → IsTraceOf lost_update_file 64 journal homes (Some (step ∷ [])) → ⊥ }
    // By the schedule `1:10` one that begins with an event of the first thread.
    ensures other_thread_first { (journal : Journal) (homes : List (ℕ × ℕ)) (step : Step) (steps : List Step)
        → IsTraceOf second_first_file 64 journal homes (Some (step ∷ steps)) → step.thread ≡ 0 → ⊥ }
    // One that leaves the words of its threads as they were opened, as where all is handed back and nothing stepped.
    ensures still { (objects : Objects) (schedule : List Turns) (first last : RunLog) (journal : Journal)
        (r : IsRunFrom of_objects objects lost_update_file 64 schedule first journal last)
        → r.stepped.stepped ≡ opened_core (of_objects.sizes objects) (of_objects.meaning objects).opened 2 → ⊥ }
    // A first event of the first thread that changes a word: the clock, ...
    ensures invented_clock { (sizes : List ℕ) (opening : Contents) (many : ℕ) (seats later : _) (log next : RunLog) (d : Core)
        → MakesOne {M = Machine Objects ScriptBody} of_objects.valid heard_by 0 (opened_core sizes opening (suc many)) seats log d later next → (d.clock ≡ 0 → ⊥) → ⊥ }
    // ... or a part.
    ensures invented_parts { (sizes : List ℕ) (opening : Contents) (many : ℕ) (seats later : _) (log next : RunLog) (d : Core)
        → MakesOne {M = Machine Objects ScriptBody} of_objects.valid heard_by 0 (opened_core sizes opening (suc many)) seats log d later next
        → (d.parts ≡ (opened_core sizes opening (suc many)).parts → ⊥) → ⊥ }
{}

/// What is not told of an event that a thread has made.
pub fn no_deed()
    // Nothing.
    ensures left_out { (thread : ℕ) (c d : Core) (seats later : _) (steps : List Step)
        → MakesOne {M = Machine Objects ScriptBody} of_objects.valid heard_by thread c seats (Some steps) d later (Some steps) → ⊥ }
    // Anything in the place of what was told before.
    ensures forgotten { (thread : ℕ) (c d : Core) (seats later : _) (steps others : List Step)
        → MakesOne {M = Machine Objects ScriptBody} of_objects.valid heard_by thread c seats (Some steps) d later (Some others)
        → ((told : Step) → others ≡ steps ++ told ∷ [] → ⊥) → ⊥ }
    // A deed of another thread.
    ensures other_thread { (thread : ℕ) (c d : Core) (seats later : _) (steps : List Step) (told : Step)
        → MakesOne {M = Machine Objects ScriptBody} of_objects.valid heard_by thread c seats (Some steps) d later (Some (steps ++ told ∷ []))
        → (told.thread ≡ thread → ⊥) → ⊥ }
    // Another deed than that of the event by which the words were changed: one of another kind, or of another part, word, value, version,
    // clock, ticket or decision. Where a part was found locked or with too late a ticket, and nothing came of it, the definitions do not tell an
    // open from a recheck, a test or a lock.
    ensures other_deed { (thread : ℕ) (c d : Core) (seats later : _) (steps : List Step) (told : Step)
        (m : MakesOne {M = Machine Objects ScriptBody} of_objects.valid heard_by thread c seats (Some steps) d later (Some (steps ++ told ∷ [])))
        → (plain told.deed ≡ plain (made m.steps.event c) → ⊥) → ⊥ }
{}
