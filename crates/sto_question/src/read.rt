//! The question that words are.
ghost use Rattle.std.specs.Prelude.{◌≡◌, map, Ok, IfOk, IfErr, [], None};
ghost use Rattle.sto_syntax.specs.Lines.{words_of};
ghost use Rattle.sto_lang.specs.Views.{declaration, file as view};
ghost use Rattle.sto_question.specs.Questions.{begun, amount_of, question_from, question_of};
ghost use Rattle.sto_question.specs.Readings.{draft as draft_of, IsFault, IsCause};
ghost use Rattle.sto_question.specs.Views.{question as view_of};

use crate::amount::amount_of;
use crate::draft::Draft;
use crate::fault::{QuestionError, QuestionFault};
use crate::question::{Amount, Question};
use std::alloc::Global;
use sto_lang::{Decl, File};
use sto_syntax::next_word;

// The amount that a word is, or why it is none.
fn read_amount(decls: &[Decl], word: &[u8]) -> Result<Amount, QuestionError>
    ensures amount { IfOk result (λ amount. amount_of (map declaration decls.now) word.now ≡ Ok amount) }
    ensures cause { IfErr result (IsFault (amount_of (map declaration decls.now) word.now)) }
{
    match amount_of(decls, word) {
        Ok(amount) => Ok(amount),
        Err(fault) => Err(QuestionError::Fault(fault)),
    }
}

// The question that words are for these objects.
fn question_in(alloc: Global, decls: &[Decl], text: &[u8]) -> Result<Question, QuestionError>
    ensures question { IfOk result (λ q. question_from (map declaration decls.now) (begun [] None) (words_of text.now) ≡ Ok (view_of q)) }
    ensures cause { IfErr result (IsFault (question_from (map declaration decls.now) (begun [] None) (words_of text.now))) }
{
    let mut draft = Draft::new(alloc);
    let mut rest = text;
    while let Some((word, after)) = next_word(rest) {
        let amount = read_amount(decls, word)?;
        let longer = draft.with_amount(amount)?;
        let Some((link, more)) = next_word(after) else {
            return longer.ended();
        };
        draft = longer.with_link(alloc, link)?;
        rest = more;
    }
    Err(QuestionError::Fault(QuestionFault::BadWords))
}

/// The question that words are, with blanks between them, for the objects of a file: comparisons with `and` between each two, each of two sides
/// with `=`, `!=`, `<`, `<=`, `>` or `>=` between them. A side is amounts with `+` or `-` between each two. An amount is a number of 64 bits, the
/// NAME of a box or a counter, or NAME[KEY] of another object.
///
/// `Fault` comes only where the words are no question, and is the first fault from the left.
pub fn read_question(alloc: Global, file: &File, words: &[u8]) -> Result<Question, QuestionError>
    ensures question { IfOk result (λ q. question_of (view file.now) words.now ≡ Ok (view_of q)) }
    ensures cause { IfErr result (IsCause (view file.now) words.now) }
{
    question_in(alloc, file.decls.as_slice(), words)
}
