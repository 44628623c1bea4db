//! The names of threads and objects.
ghost use Rattle.std.specs.Prelude.{◌≡◌, ◌<◌, length, map, find, ◌==◌, option_copied};
ghost use Rattle.sto_lang.specs.Objects.{with_number};
ghost use Rattle.sto_lang.specs.Views.{declaration, names_of};
ghost use Rattle.sto_report_spec.specs.Aborts.{name_of};
ghost use Rattle.sto_report_spec.specs.Report.{name_at};

use sto_lang::{Decl, Thread};

/// The name of the thread with a number.
pub(crate) fn thread_name(threads: &[Thread], number: u32) -> &str
    requires { number < length threads.now }
    ensures { result.now ≡ name_at (names_of threads.now) number }
{
    threads[number as usize].name.as_str()
}

/// The object with a number.
fn decl_with(decls: &[Decl], number: u32) -> Option<&Decl>
    ensures { option_copied result ≡ find (λ d. d.number == number) decls.now }
{
    decls.iter().find(|decl| decl.number == number)
}

#[tactic(auto, using(crate::proofs::Objects::found, crate::proofs::Objects::not_found))]
/// The name of the object with a number; where none has it, nothing.
pub(crate) fn object_name(decls: &[Decl], number: u32) -> &str
    ensures { result.now ≡ name_of (with_number number (map declaration decls.now)) }
{
    match decl_with(decls, number) {
        Some(decl) => decl.name.as_str(),
        None => "",
    }
}
