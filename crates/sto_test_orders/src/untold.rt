//! Reports that do not tell what all orders lead to.
ghost use Rattle.std.specs.Prelude.{◌≡◌, ℕ, List, ◌∷◌, Some, Vec};
ghost use Rattle.std.specs.declared.alloc.Global.{Global};
ghost use Rattle.sto_lang.specs.Scripts.{File};
ghost use Rattle.sto_lang.specs.declared.file.Turns.{Turns};
ghost use Rattle.sto_report_spec.specs.Lawful.{IsLawfulIn};
ghost use Rattle.sto_report_spec.specs.declared.form.ReportForm.{ReportForm};
ghost use Rattle.sto_run.specs.Meanings.{updating_by};
ghost use Rattle.sto_run.specs.Stores.{means};
ghost use Rattle.sto_run.specs.Stepped.{IsStepReport};
ghost use Rattle.sto_orders.specs.declared.same_by.SameBy.{SameBy};
ghost use Rattle.sto_run_orders.specs.declared.report.OrderReport.{OrderReport};
ghost use Rattle.sto_run_orders.specs.Reports.{AreOrderReports, IsAmong};

/// They do not.
pub fn not_all_reports()
    // None of them tells what a lawful report tells.
    ensures left_out { (by : SameBy) (form : ReportForm) (f : File) (tries n : ℕ) (reports : List OrderReport) (text : List ℕ)
        → IsLawfulIn form (updating_by means) f n text → (IsAmong by form f reports text → ⊥) → AreOrderReports by form f tries reports → ⊥ }
    // One stands there twice.
    ensures twice { (by : SameBy) (form : ReportForm) (f : File) (tries : ℕ) (r : OrderReport) (reports : List OrderReport)
        → AreOrderReports by form f tries (r ∷ r ∷ reports) → ⊥ }
    // The schedule of one leads elsewhere.
    ensures elsewhere { (by : SameBy) (form : ReportForm) (f : File) (tries : ℕ) (r : OrderReport) (reports : List OrderReport)
        (schedule : Vec Turns Global) → r.schedule ≡ Some schedule → (IsStepReport form f tries schedule.items r.report.items → ⊥)
        → AreOrderReports by form f tries (r ∷ reports) → ⊥ }
{}
