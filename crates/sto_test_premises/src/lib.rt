//! Two runs of which every event is written down, from opened words to the report. Each meets all that the headline asks of words and
//! records, so these demands do not contradict each other: one has an attempt that was aborted by a change, and one by a lock.
//!
//! `specs/LostUpdate` and `specs/LockedOut` list the events and the records, and `specs/Premises` the demands.
#![tactic(auto)]

ghost use Rattle.std.specs.Prelude.{◌≡◌, [], Ok};
ghost use Rattle.sto_lang.specs.Files.{file_of};
ghost use Rattle.sto_report_spec.specs.Lawful.{made_in, IsLawfulIn};
ghost use Rattle.sto_report_spec.specs.declared.form.ReportForm.{ReportForm};
ghost use Rattle.sto_report_spec.specs.declared.form.ReportForm.TheVariants.{Text};
ghost use Rattle.sto_serializability.specs.Meanings.{updating_by};
ghost use Rattle.sto_test_premises.specs.Adding.{script, file, box, valid};
ghost use Rattle.sto_test_premises.specs.LostUpdate as lost;
ghost use Rattle.sto_test_premises.specs.LockedOut as locked;
ghost use Rattle.sto_test_premises.specs.Premises.{Premises};

/// The report of two transactions that each add 1 to one box, where the first to read finds the other's ticket, drops its own and
/// is made again. The script says the file; the words at the end of the events and the three records meet all premises of the
/// headline; so the report of the order and of the aborted attempt that they tell is lawful in both forms, and the text is the
/// one that is written here.
pub fn lost_update() -> &'static str
    ensures script { file_of script ≡ Ok file }
    ensures premises { Premises valid [] box.opened box file 64 lost.closed lost.view lost.records lost.ordered }
    ensures lawful { (form : ReportForm) → IsLawfulIn form (updating_by (λ _. box)) file 64
        (made_in form file lost.order lost.told_aborts) }
    ensures text { result.now ≡ made_in Text file lost.order lost.told_aborts }
{
    "1 t1.1 commit 0 ok\n2 t0.1 commit 1 ok\nabort t0.1 at 0 saw 0 ok changed a 0 by 1\nstate\na = 2\n"
}

/// The report of the same transactions with one try each, where the second finds the box locked by the first. It has heard nothing
/// when it is aborted, is handed back, and runs on the reopened words. The clauses say of it what those of [`lost_update`] say.
pub fn locked_out() -> &'static str
    ensures script { file_of script ≡ Ok file }
    ensures premises { Premises valid [] box.opened box file 1 locked.closed locked.view locked.records locked.ordered }
    ensures lawful { (form : ReportForm) → IsLawfulIn form (updating_by (λ _. box)) file 1
        (made_in form file locked.order locked.told_aborts) }
    ensures text { result.now ≡ made_in Text file locked.order locked.told_aborts }
{
    "1 t0.1 commit 0 ok\n2 t1.1 commit 1 ok\nabort t1.1 at 0 saw locked a 0\nstate\na = 2\n"
}
