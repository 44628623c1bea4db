//! Outcomes that are asked for.
ghost use Rattle.std.specs.Prelude.{◌≡◌, filter, IfOk};
ghost use Rattle.sto_question.specs.Questions.{is_true_of};
ghost use Rattle.sto_question.specs.Views.{question as view};

use crate::report::OrderReport;
use std::alloc::Global;
use sto_part::NoMemory;
use sto_question::Question;

/// How outcomes are asked for: those of which a question is true; and of `Never`, that there are none.
#[derive(Clone, Copy, PartialEq, Eq, Debug)]
pub enum Asking {
    Where,
    Never,
}

/// The reports of which a question is true: of the final states that they tell. They keep their order.
pub fn those_asked(
    alloc: Global,
    question: &Question,
    reports: Vec<OrderReport>,
) -> Result<Vec<OrderReport>, NoMemory>
    ensures { IfOk result (λ kept. kept.items ≡ filter (λ r. is_true_of (view question.now) r.state.items) reports.items) }
{
    let mut kept = Vec::new(alloc);
    for report in reports {
        if !question.is_true_of(&report.state)? {
            continue;
        }
        if kept.push(report).is_err() {
            return Err(NoMemory);
        }
    }
    Ok(kept)
}
