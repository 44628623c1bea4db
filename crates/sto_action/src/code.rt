//! Code that may be run as a transaction.
ghost use Rattle.std.specs.Prelude.{◌≡◌, ℕ};
ghost use Rattle.sto_action.specs.Progs.{Prog, Follows};

use crate::tx::{Stop, Tx};

/// Code that may be run as a transaction.
///
/// It is run again from its beginning after each reply, over all replies so far. So it looks at nothing but itself and what its calls
/// are answered.
pub trait Action {
    /// What it gives.
    type Out;

    /// Why it may give the transaction up. Code that never does says `Infallible`, which has no values.
    type Reason;

    /// What it does.
    ghost does: { Self → Prog Self.Reason Self.Out };

    /// How many calls it may ask; where it asks more, it is given up.
    ghost most: { Self → ℕ };

    /// How many calls it may ask.
    fn most(&self) -> u32
        ensures { result ≡ most self.now };

    /// Runs it over what its calls were answered, from the first on; what it needs not is left.
    fn run(&self, tx: &mut Tx<'_>) -> Result<Self::Out, Stop<Self::Reason>>
        ensures { Follows (does self.now) tx.old tx.new result };
}
