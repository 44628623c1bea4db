//! What a call is to answer, as a table has it.
use sto_model::Reply;

/// A reply that is wanted. Its rows stand in the table, where those of a `Reply` stand in a list.
#[derive(Clone, Copy)]
pub(crate) enum Said {
    Done,
    Value(i64),
    Flag(bool),
    Absent,
    Full,
    Range,
    Pairs(&'static [(i64, i64)]),
}

/// Whether each reply is the wanted one, and there are as many.
pub(crate) fn are_said(replies: &[Reply], wanted: &[Said]) -> bool {
    for (reply, said) in replies.iter().zip(wanted) {
        if !is_said(reply, said) {
            return false;
        }
    }
    replies.len() == wanted.len()
}

/// Whether the reply is the wanted one.
pub(crate) fn is_said(reply: &Reply, said: &Said) -> bool {
    match (reply, said) {
        (Reply::Value(value), Said::Value(wanted)) => value == wanted,
        (Reply::Flag(flag), Said::Flag(wanted)) => flag == wanted,
        (Reply::Pairs(pairs), Said::Pairs(wanted)) => pairs.as_slice() == *wanted,
        (Reply::Done, Said::Done)
        | (Reply::Absent, Said::Absent)
        | (Reply::Full, Said::Full)
        | (Reply::Range, Said::Range) => true,
        _ => false,
    }
}
