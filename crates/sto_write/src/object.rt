//! The objects that calls name.
ghost use Rattle.std.specs.Prelude.{◌≡◌, ◌==◌, find};
ghost use Rattle.std.specs.Option.{option_copied};

use sto_lang::Decl;

/// The object with a number.
pub fn decl_with(decls: &[Decl], number: u32) -> Option<&Decl>
    ensures { option_copied result ≡ find (λ d. d.number == number) decls.now }
{
    decls.iter().find(|decl| decl.number == number)
}
