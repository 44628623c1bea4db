//! Lists of outcomes that are not those of all orders.
ghost use Rattle.std.specs.Prelude.{◌≡◌, ℕ, List, [], ◌∷◌, map, Some, slice_get};
ghost use Rattle.sto_lang.specs.Scripts.{File};
ghost use Rattle.sto_report_spec.specs.Orders.{TransactionPlace, IsOrder};
ghost use Rattle.sto_report_spec.specs.Replay.{entries_of, final_state};
ghost use Rattle.sto_journal.specs.Journals.{entry};
ghost use Rattle.sto_orders.specs.Outcomes.{end_of, order_of, AreOutcomes};
ghost use Rattle.sto_orders.specs.declared.outcome.Outcome.{Outcome};
ghost use Rattle.sto_orders.specs.declared.same_by.SameBy.{SameBy};

/// They are not.
pub fn not_all_outcomes()
    // An order leads to none of them.
    ensures left_out { (by : SameBy) (f : File) (outcomes : List Outcome) (order : List TransactionPlace) → IsOrder f order
        → ((k : ℕ) (o : Outcome) → slice_get outcomes k ≡ Some o → end_of by f (order_of o) ≡ end_of by f order → ⊥)
        → AreOutcomes by f outcomes → ⊥ }
    // There is none, not even of a file without a transaction.
    ensures nothing { (by : SameBy) (f : File) → AreOutcomes by f [] → ⊥ }
    // One stands there twice.
    ensures twice { (by : SameBy) (f : File) (o : Outcome) (outcomes : List Outcome) → AreOutcomes by f (o ∷ o ∷ outcomes) → ⊥ }
    // Two are the same.
    ensures same { (by : SameBy) (f : File) (o p : Outcome) (outcomes : List Outcome)
        → end_of by f (order_of o) ≡ end_of by f (order_of p) → AreOutcomes by f (o ∷ p ∷ outcomes) → ⊥ }
    // The lines of one are in no order of the file.
    ensures no_order { (by : SameBy) (f : File) (o : Outcome) (outcomes : List Outcome) → (IsOrder f (order_of o) → ⊥)
        → AreOutcomes by f (o ∷ outcomes) → ⊥ }
    // The lines of one are not those of the replay.
    ensures other_lines { (by : SameBy) (f : File) (o : Outcome) (outcomes : List Outcome)
        → (map entry o.lines.items ≡ entries_of f (order_of o) → ⊥) → AreOutcomes by f (o ∷ outcomes) → ⊥ }
    // The state of one is not the one that the replay leaves.
    ensures other_state { (by : SameBy) (f : File) (o : Outcome) (outcomes : List Outcome)
        → (o.state.items ≡ final_state f (order_of o) → ⊥) → AreOutcomes by f (o ∷ outcomes) → ⊥ }
{}
