//! What `check` does not find.
ghost use Rattle.std.specs.Prelude.{ℕ, List, codes};
ghost use Rattle.sto_checker.specs.declared.found.Found.TheVariants.{Lawful, Not};
ghost use Rattle.sto_check_cli.specs.Answers.{IsFoundIn};
ghost use Rattle.sto_check_cli.specs.Programs.{program};
ghost use Rattle.sto_test_refusals.specs.Texts.{right, exchanged, left_out, other_reply, other_part, other_writer, other_rows};
ghost use Rattle.sto_test_program_refusals.specs.Inputs.{with_report};

/// What it does not find of reports of two transactions that each add 1 to a box.
pub fn not_found()
    // That they are lawful.
    ensures exchanged { IsFoundIn 64 (with_report exchanged) Lawful → ⊥ }
    ensures left_out { IsFoundIn 64 (with_report left_out) Lawful → ⊥ }
    ensures other_reply { IsFoundIn 64 (with_report other_reply) Lawful → ⊥ }
    ensures other_part { IsFoundIn 64 (with_report other_part) Lawful → ⊥ }
    ensures other_writer { IsFoundIn 64 (with_report other_writer) Lawful → ⊥ }
    ensures other_rows { IsFoundIn 64 (with_report other_rows) Lawful → ⊥ }
    // That a lawful one goes wrong at its first line.
    ensures right { IsFoundIn 64 (with_report right) (Not 1) → ⊥ }
    // And it does not say of one that it goes wrong at line 1 that it is lawful, nor the other way round.
    ensures other_answer { (tries : ℕ) (bytes : List ℕ) → program.IsAnswer (record { tries = tries }) bytes (Not 1) (codes "lawful\n") → ⊥ }
    ensures other_line { (tries : ℕ) (bytes : List ℕ) → program.IsAnswer (record { tries = tries }) bytes Lawful (codes "line 1\n") → ⊥ }
{}
