//! The text of `explore`: what all orders of a script's transactions lead to.
ghost use Rattle.std.specs.Prelude.{◌≡◌, length, Option, None, Some, Ok, IfOk, IfErr};
ghost use Rattle.std.specs.List.{All};
ghost use Rattle.sto_args.specs.declared.command.Asked.{Asked as AskedOf};
ghost use Rattle.sto_lang.specs.Sound.{IsSound};
ghost use Rattle.sto_lang.specs.Views.{file as view};
ghost use Rattle.sto_lang.specs.Scripts.{File as Whole};
ghost use Rattle.sto_run.specs.Forms.{form_for};
ghost use Rattle.sto_orders.specs.Causes.{IsCause};
ghost use Rattle.sto_orders.specs.declared.same_by.SameBy.{SameBy};
ghost use Rattle.sto_run_orders.specs.Asked.{asked_of};
ghost use Rattle.sto_run_orders.specs.Reports.{HasTold};
ghost use Rattle.sto_run_orders.specs.Texts.{asked_in};
ghost use Rattle.sto_question.specs.Questions as questions;
ghost use Rattle.sto_question.specs.Views.{question as question_of};
ghost use Rattle.sto_cli.specs.Traces.{IsRefusalFor};
ghost use Rattle.sto_cli.specs.Orders.{same_by, asked_by, answer_for, TellsOrders, IsExplored, IsNoQuestion, IsUntold, IsOrdersFault};

use crate::told::{Answer, Told};
use std::alloc::Global;
use sto_args::{Asked, By};
use sto_console::{InputFault, Refusal, StateCount, file_in};
use sto_lang::File;
use sto_part::NoMemory;
use sto_question::{Question, QuestionError, read_question};
use sto_run_orders::{
    Asking, OrderReport, OrdersError, SameBy, asked_text, explore_orders, reports_text, those_asked,
};

// What outcomes are told apart by.
fn same_by(by: By) -> SameBy
    ensures { result ≡ same_by by }
{
    match by {
        By::State => SameBy::State,
        By::Answers => SameBy::Answers,
        By::Order => SameBy::Order,
    }
}

// Why the orders of a script are not told.
fn refusal(error: OrdersError, states: u64) -> Refusal
    ensures { (by : SameBy) (asked : Option AskedOf) (file : Whole) → IsCause by file states error
        → IsRefusalFor (IsUntold by states asked file) result }
{
    match error {
        OrdersError::NoMemory => Refusal::NoMemory,
        OrdersError::AtLeast(least) => {
            Refusal::Input(InputFault::ManyStates(StateCount::AtLeast(least)))
        }
        OrdersError::TooMany => {
            Refusal::Input(InputFault::ManyStates(StateCount::MoreThan(states)))
        }
    }
}

// What all orders of a file's transactions lead to, as it is printed.
fn all_told(
    alloc: Global,
    file: &File,
    by: SameBy,
    states: u64,
    json: bool,
) -> Result<Told, Refusal>
    requires { IsSound (view file.now) }
    ensures told { IfOk result (λ told. TellsOrders by states json None (view file.now) told.answer told.text.items) }
    ensures fault { IfErr result (λ e. IsRefusalFor (IsUntold by states None (view file.now)) e) }
{
    match explore_orders(alloc, file, by, states, json) {
        Ok(reports) => Ok(Told {
            answer: Answer::Done,
            text: reports_text(alloc, file, reports.as_slice(), json)?,
        }),
        Err(error) => Err(refusal(error, states)),
    }
}

// Whether an outcome was found that must never be.
fn answer_for(asking: Asking, kept: &[OrderReport]) -> Answer
    ensures { result ≡ answer_for asking kept.now }
{
    match asking {
        Asking::Where => Answer::Done,
        Asking::Never if kept.is_empty() => Answer::Done,
        Asking::Never => Answer::Found,
    }
}

// What is told of those outcomes alone of which a question is true.
fn told_of(
    alloc: Global,
    file: &File,
    asking: Asking,
    question: &Question,
    reports: Vec<OrderReport>,
    json: bool,
) -> Result<Told, NoMemory>
    requires { All (HasTold (form_for json) (view file.now)) reports.items }
    ensures answer { IfOk result (λ told. told.answer
        ≡ answer_for asking (asked_of (form_for json) (view file.now) (question_of question.now) reports.items)) }
    ensures text { IfOk result (λ told. told.text.items ≡ asked_in json asking (length reports.items) (view file.now)
        (asked_of (form_for json) (view file.now) (question_of question.now) reports.items)) }
{
    let all = reports.as_slice().len() as u64;
    let kept = those_asked(alloc, question, reports)?;
    let text = asked_text(alloc, file, asking, all, kept.as_slice(), json)?;
    Ok(Told {
        answer: answer_for(asking, kept.as_slice()),
        text,
    })
}

// The question that words are for a file.
fn question_in(alloc: Global, file: &File, words: &[u8]) -> Result<Question, Refusal>
    ensures question { IfOk result (λ q. questions.question_of (view file.now) words.now ≡ Ok (question_of q)) }
    ensures fault { IfErr result (λ e. IsRefusalFor (IsNoQuestion words.now (view file.now)) e) }
{
    match read_question(alloc, file, words) {
        Ok(question) => Ok(question),
        Err(QuestionError::Fault(fault)) => Err(Refusal::Input(InputFault::Question(fault))),
        Err(QuestionError::NoMemory) => Err(Refusal::NoMemory),
    }
}

// What is told of those outcomes alone of which the question is true that words are.
fn asked_told(
    alloc: Global,
    file: &File,
    by: SameBy,
    states: u64,
    json: bool,
    asking: Asking,
    words: &[u8],
) -> Result<Told, Refusal>
    requires { IsSound (view file.now) }
    ensures told { IfOk result (λ told. TellsOrders by states json (Some (asked_by asking words.now)) (view file.now) told.answer told.text.items) }
    ensures fault { IfErr result (λ e. IsRefusalFor (IsUntold by states (Some (asked_by asking words.now)) (view file.now)) e) }
{
    let question = question_in(alloc, file, words)?;
    match explore_orders(alloc, file, by, states, json) {
        Ok(reports) => Ok(told_of(alloc, file, asking, &question, reports, json)?),
        Err(error) => Err(refusal(error, states)),
    }
}

// What is told of a file: of all outcomes, or of those alone that are asked for.
fn outcomes_told(
    alloc: Global,
    file: &File,
    by: SameBy,
    states: u64,
    json: bool,
    asked: &Option<Asked>,
) -> Result<Told, Refusal>
    requires { IsSound (view file.now) }
    ensures told { IfOk result (λ told. TellsOrders by states json asked.now (view file.now) told.answer told.text.items) }
    ensures fault { IfErr result (λ e. IsRefusalFor (IsUntold by states asked.now (view file.now)) e) }
{
    match asked {
        None => all_told(alloc, file, by, states, json),
        Some(Asked::Where(words)) => {
            let words = words.as_bytes();
            asked_told(alloc, file, by, states, json, Asking::Where, words)
        }
        Some(Asked::Never(words)) => {
            let words = words.as_bytes();
            asked_told(alloc, file, by, states, json, Asking::Never, words)
        }
    }
}

/// What `explore` tells of these bytes.
pub(crate) fn explore_told(
    alloc: Global,
    bytes: &[u8],
    by: By,
    states: u64,
    json: bool,
    asked: &Option<Asked>,
) -> Result<Told, Refusal>
    ensures told { IfOk result (λ told. IsExplored (same_by by) states json asked.now bytes.now told.answer told.text.items) }
    ensures fault { IfErr result (λ e. IsRefusalFor (IsOrdersFault (same_by by) states asked.now bytes.now) e) }
{
    let file = file_in(alloc, bytes)?;
    outcomes_told(alloc, &file, same_by(by), states, json, asked)
}
