//! Refusals without a cause.
ghost use Rattle.std.specs.Prelude.{◌≡◌, ◌≤◌, ℕ, List, [], ◌∷◌, length};
ghost use Rattle.std.specs.List.{All};
ghost use Rattle.sto_lang.specs.Scripts.{File};
ghost use Rattle.sto_report_spec.specs.Orders.{TransactionPlace};
ghost use Rattle.sto_orders.specs.Causes.{IsFront, AreApart, HasMoreNodes, IsCause, least_told};
ghost use Rattle.sto_orders.specs.declared.limit.OrdersError.TheVariants.{AtLeast, TooMany};
ghost use Rattle.sto_orders.specs.declared.same_by.SameBy.{SameBy};

/// These are no causes.
pub fn no_cause()
    // So many nodes there may be.
    ensures allowed { (by : SameBy) (f : File) (most least : ℕ) → least ≤ most → IsCause by f most (AtLeast least) → ⊥ }
    // The number is not the product of the numbers of transactions, each with one more.
    ensures other_number { (by : SameBy) (f : File) (most least : ℕ) → (least ≡ least_told f.threads → ⊥)
        → IsCause by f most (AtLeast least) → ⊥ }
    // There are no more beginnings that do not meet.
    ensures enough { (by : SameBy) (f : File) (most : ℕ)
        → ((orders : List (List TransactionPlace)) → All (IsFront f) orders → AreApart by f orders → length orders ≤ most)
        → IsCause by f most TooMany → ⊥ }
    // One node is enough for a file without a thread.
    ensures nothing { (by : SameBy) (f : File) (most : ℕ) → f.threads ≡ [] → 1 ≤ most → IsCause by f most TooMany → ⊥ }
    // The same beginning counts twice.
    ensures twice { (by : SameBy) (f : File) (order : List TransactionPlace) (orders : List (List TransactionPlace))
        → AreApart by f (order ∷ order ∷ orders) → ⊥ }
{}
