//! What `feed` does not print.
ghost use Rattle.std.specs.Prelude.{ℕ, List, [], Option, Some};
ghost use Rattle.sto_console.specs.Outcomes.{IsDone};
ghost use Rattle.sto_feed_cli.specs.Programs.{IsFed, feed_program};
ghost use Rattle.sto_test_premises.specs.Adding.{script};
ghost use Rattle.sto_test_refusals.specs.Texts.{right, exchanged, left_out, other_reply, other_part};

/// What it does not print of two transactions that each add 1 to a box, and how it does not end.
pub fn not_fed()
    ensures exchanged { (threads : Option ℕ) → IsFed (record { threads = threads; tries = 64 }) script exchanged → ⊥ }
    ensures left_out { (threads : Option ℕ) → IsFed (record { threads = threads; tries = 64 }) script left_out → ⊥ }
    ensures other_reply { (threads : Option ℕ) → IsFed (record { threads = threads; tries = 64 }) script other_reply → ⊥ }
    ensures other_part { (threads : Option ℕ) → IsFed (record { threads = threads; tries = 64 }) script other_part → ⊥ }
    // With one worker: an aborted attempt.
    ensures alone_aborted { IsFed (record { threads = Some 1; tries = 64 }) script right → ⊥ }
    // With status 0 and nothing written, whatever it read.
    ensures nothing { (threads : Option ℕ) (tries : ℕ) (bytes held : List ℕ)
        → IsDone feed_program tt (Some (record { threads = threads; tries = tries })) (Some bytes) (Some []) (Some held) (Some held) → ⊥ }
{}
