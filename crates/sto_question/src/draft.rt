//! A question as far as its words are read.
ghost use Rattle.std.specs.Prelude.{◌≡◌, [], None, Ok, IfOk, IfErr};
ghost use Rattle.sto_question.specs.Questions.{begun, with_amount, ended, with_test, next_begun, with_other, with_link, with_sign, test_of, sign_of};
ghost use Rattle.sto_question.specs.Readings.{draft as draft_of, IsFault};
ghost use Rattle.sto_question.specs.Views.{question as question_of};

use crate::fault::{QuestionError, QuestionFault};
use crate::question::{Amount, Comparison, Question, Sign, Term};
use std::alloc::Global;
use sto_part::{NoMemory, Test};

/// The comparisons that are whole, of the next one the left side with its test, and the terms of the side that is begun, with the sign of
/// the amount that must come.
#[derive(Drop)]
pub(crate) struct Draft {
    pub(crate) whole: Vec<Comparison>,
    pub(crate) left: Option<(Vec<Term>, Test)>,
    pub(crate) terms: Vec<Term>,
    pub(crate) sign: Sign,
}

// The comparison that a word is.
fn test_of(word: &[u8]) -> Option<Test>
    ensures { result ≡ test_of word.now }
{
    if word == b"=".as_slice() {
        Some(Test::Eq)
    } else if word == b"!=".as_slice() {
        Some(Test::Ne)
    } else if word == b"<".as_slice() {
        Some(Test::Lt)
    } else if word == b"<=".as_slice() {
        Some(Test::Le)
    } else if word == b">".as_slice() {
        Some(Test::Gt)
    } else if word == b">=".as_slice() {
        Some(Test::Ge)
    } else {
        None
    }
}

// The sign that a word is.
fn sign_of(word: &[u8]) -> Option<Sign>
    ensures { result ≡ sign_of word.now }
{
    if word == b"+".as_slice() {
        Some(Sign::Plus)
    } else if word == b"-".as_slice() {
        Some(Sign::Minus)
    } else {
        None
    }
}

impl Draft {
    /// No word so far.
    pub(crate) fn new(alloc: Global) -> Draft
        ensures { draft_of result ≡ begun [] None }
    {
        Draft {
            whole: Vec::new(alloc),
            left: None,
            terms: Vec::new(alloc),
            sign: Sign::Plus,
        }
    }

    /// With one more amount.
    pub(crate) fn with_amount(self, amount: Amount) -> Result<Draft, NoMemory>
        ensures { IfOk result (λ d. draft_of d ≡ with_amount (draft_of self) amount) }
    {
        let Draft {
            whole,
            left,
            mut terms,
            sign,
        } = self;
        if terms.push(Term { sign, amount }).is_err() {
            return Err(NoMemory);
        }
        Ok(Draft {
            whole,
            left,
            terms,
            sign,
        })
    }

    /// The question, where both sides of the last comparison are there.
    pub(crate) fn ended(self) -> Result<Question, QuestionError>
        ensures question { IfOk result (λ q. ended (draft_of self) ≡ Ok (question_of q)) }
        ensures cause { IfErr result (IsFault (ended (draft_of self))) }
    {
        let Draft {
            whole: mut comparisons,
            left,
            terms: right,
            ..
        } = self;
        let Some((left, test)) = left else {
            return Err(QuestionError::Fault(QuestionFault::BadWords));
        };
        if comparisons.push(Comparison { left, test, right }).is_err() {
            return Err(QuestionError::NoMemory);
        }
        Ok(Question { comparisons })
    }

    // With a test behind the left side.
    fn with_test(self, alloc: Global, test: Test) -> Result<Draft, QuestionError>
        ensures draft { IfOk result (λ d. with_test (draft_of self) (draft_of self).left test ≡ Ok (draft_of d)) }
        ensures cause { IfErr result (IsFault (with_test (draft_of self) (draft_of self).left test)) }
    {
        let Draft {
            whole,
            left,
            terms,
            ..
        } = self;
        match left {
            None => Ok(Draft {
                whole,
                left: Some((terms, test)),
                terms: Vec::new(alloc),
                sign: Sign::Plus,
            }),
            Some(_) => Err(QuestionError::Fault(QuestionFault::BadWords)),
        }
    }

    // With the word between two comparisons.
    fn with_and(self, alloc: Global) -> Result<Draft, QuestionError>
        ensures draft { IfOk result (λ d. next_begun (ended (draft_of self)) ≡ Ok (draft_of d)) }
        ensures cause { IfErr result (IsFault (next_begun (ended (draft_of self)))) }
    {
        let Question { comparisons } = self.ended()?;
        Ok(Draft {
            whole: comparisons,
            left: None,
            terms: Vec::new(alloc),
            sign: Sign::Plus,
        })
    }

    // With a word behind an amount that is no sign.
    fn with_other(self, alloc: Global, word: &[u8]) -> Result<Draft, QuestionError>
        ensures draft { IfOk result (λ d. with_other (draft_of self) word.now (test_of word.now) ≡ Ok (draft_of d)) }
        ensures cause { IfErr result (IsFault (with_other (draft_of self) word.now (test_of word.now))) }
    {
        match test_of(word) {
            Some(test) => self.with_test(alloc, test),
            None if word == b"and".as_slice() => self.with_and(alloc),
            None => Err(QuestionError::Fault(QuestionFault::BadWords)),
        }
    }

    // With a sign before the next amount.
    fn with_next_sign(self, sign: Sign) -> Draft
        ensures { draft_of result ≡ record (draft_of self) { sign = sign } }
    {
        let Draft {
            whole,
            left,
            terms,
            ..
        } = self;
        Draft {
            whole,
            left,
            terms,
            sign,
        }
    }

    /// With a word behind an amount: a sign, a test, or `and`.
    pub(crate) fn with_link(self, alloc: Global, word: &[u8]) -> Result<Draft, QuestionError>
        ensures draft { IfOk result (λ d. with_link (draft_of self) word.now ≡ Ok (draft_of d)) }
        ensures cause { IfErr result (IsFault (with_link (draft_of self) word.now)) }
    {
        match sign_of(word) {
            Some(sign) => Ok(self.with_next_sign(sign)),
            None => self.with_other(alloc, word),
        }
    }
}
