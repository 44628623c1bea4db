//! Replies as a report shows them, and how much calls took.
use crate::trees::asking::Answer;
use std::alloc::{AllocError, Global};
use std::fmt::Write;
use sto_model::{Pairs, Reply};

/// Each reply behind a space.
pub(crate) fn replies_in(alloc: Global, answers: &[Answer]) -> Result<String, AllocError> {
    let mut text = String::new(alloc);
    for answer in answers {
        text.push_str(" ")?;
        add_reply(&mut text, &answer.reply)?;
    }
    Ok(text)
}

/// How many items each call noted, and how many parts it updated.
pub(crate) fn sizes_in(alloc: Global, answers: &[Answer]) -> Result<String, AllocError> {
    let mut text = String::new(alloc);
    for answer in answers {
        write!(text, " {}+{}", answer.observed, answer.updated)?;
    }
    Ok(text)
}

fn add_reply(text: &mut String, reply: &Reply) -> Result<(), AllocError> {
    match reply {
        Reply::Done => text.push_str("ok"),
        Reply::Value(value) => write!(text, "{value}"),
        Reply::Flag(true) => text.push_str("yes"),
        Reply::Flag(false) => text.push_str("no"),
        Reply::Absent => text.push_str("none"),
        Reply::Full => text.push_str("full"),
        Reply::Range => text.push_str("range"),
        Reply::Pairs(pairs) => add_pairs(text, pairs),
    }
}

fn add_pairs(text: &mut String, pairs: &Pairs) -> Result<(), AllocError> {
    text.push_str("[")?;
    for (place, pair) in pairs.as_slice().iter().enumerate() {
        if place > 0 {
            text.push_str(",")?;
        }
        let (key, value) = *pair;
        write!(text, "{key}:{value}")?;
    }
    text.push_str("]")
}
