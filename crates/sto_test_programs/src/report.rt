//! A report as its JSON has it, and the text that says the same.
//!
//! What stands in the JSON in another place or kind than it should is a `?` of the text, and so is a member too many or too few.
use serde_json::Value;
use std::alloc::{AllocError, Global};
use std::fmt::Write;

/// What stands in a list of the report: the journal, the aborted attempts, the objects, or the replies of a line.
pub fn members<'v>(value: &'v Value, name: &str) -> &'v [Value] {
    match value.get(name) {
        Some(Value::Array(items)) => items.as_slice(),
        _ => &[],
    }
}

/// The text of a report.
pub fn text_of(alloc: Global, report: &Value) -> Result<String, AllocError> {
    let mut text = String::new(alloc);
    count_members(&mut text, report, 3)?;
    for entry in members(report, "journal") {
        push_entry(&mut text, entry)?;
    }
    for abort in members(report, "aborts") {
        push_abort(&mut text, abort)?;
    }
    text.push_str("state\n")?;
    for object in members(report, "state") {
        push_object(&mut text, object)?;
    }
    Ok(text)
}

fn count_members(text: &mut String, value: &Value, count: usize) -> Result<(), AllocError> {
    match value.as_object() {
        Some(object) if object.len() == count => Ok(()),
        _ => text.push_str("?"),
    }
}

fn push_word(text: &mut String, value: Option<&Value>) -> Result<(), AllocError> {
    match value {
        Some(Value::String(word)) => text.push_str(word.as_str()),
        _ => text.push_str("?"),
    }
}

fn push_number(text: &mut String, value: Option<&Value>) -> Result<(), AllocError> {
    match value.and_then(|number| number.as_u64()) {
        Some(number) => write!(text, "{number}"),
        None => text.push_str("?"),
    }
}

// The thread and the position of a transaction.
fn push_place(text: &mut String, value: &Value) -> Result<(), AllocError> {
    push_word(text, value.get("thread"))?;
    text.push_str(".")?;
    push_number(text, value.get("position"))
}

fn push_replies(text: &mut String, replies: &[Value]) -> Result<(), AllocError> {
    for reply in replies {
        text.push_str(" ")?;
        push_word(text, Some(reply))?;
    }
    Ok(())
}

// A transaction that ended.
fn push_entry(text: &mut String, entry: &Value) -> Result<(), AllocError> {
    count_members(text, entry, 5)?;
    push_number(text, entry.get("k"))?;
    text.push_str(" ")?;
    push_place(text, entry)?;
    text.push_str(" ")?;
    push_word(text, entry.get("end"))?;
    push_replies(text, members(entry, "replies"))?;
    text.push_str("\n")
}

// An attempt that was aborted.
fn push_abort(text: &mut String, abort: &Value) -> Result<(), AllocError> {
    let by = abort.get("by");
    count_members(text, abort, 7 + usize::from(by.is_some()))?;
    text.push_str("abort ")?;
    push_place(text, abort)?;
    text.push_str(" at ")?;
    push_number(text, abort.get("at"))?;
    text.push_str(" saw")?;
    push_replies(text, members(abort, "saw"))?;
    push_cause(text, abort)?;
    push_changer(text, by)?;
    text.push_str("\n")
}

// The part that was locked or had changed.
fn push_cause(text: &mut String, abort: &Value) -> Result<(), AllocError> {
    text.push_str(" ")?;
    push_word(text, abort.get("cause"))?;
    text.push_str(" ")?;
    push_word(text, abort.get("object"))?;
    text.push_str(" ")?;
    push_number(text, abort.get("part"))
}

// The number of the transaction that had changed it; a part that was locked has none.
fn push_changer(text: &mut String, by: Option<&Value>) -> Result<(), AllocError> {
    if by.is_none() {
        return Ok(());
    }
    text.push_str(" by ")?;
    push_number(text, by)
}

// What an object holds at the end.
fn push_object(text: &mut String, object: &Value) -> Result<(), AllocError> {
    count_members(text, object, 2)?;
    push_word(text, object.get("name"))?;
    text.push_str(" = ")?;
    push_word(text, object.get("text"))?;
    text.push_str("\n")
}
