//! Which contents a type takes for valid.
ghost use Rattle.std.specs.Prelude.{ℕ, ℤ, List};

/// Names a type for contracts that speak of valid contents and know nothing else of types.
/// It has no functions that run.
pub trait Naming {
    /// The numbers that the type's parts follow from.
    ghost sizes: { Self → List ℕ };

    /// Which contents are valid for such numbers.
    ghost valid: { List ℕ → List (List ℤ) → Type 0 };
}
