//! How long texts, files and rare bytes are written in a file of cases.
//!
//! `<3 ab>` stands for `ababab`, `<3 b#,>` for `b1,b2,b3,`, and `<file F>` for the text of the file F. `<cr>` and `<del>` stand for the
//! bytes 13 and 127. A `<` that no `>` follows ends the text.
use std::alloc::AllocError;
use std::fmt::Write;
use std::{fs, io};

/// The text that is written so.
pub fn written_out(rt: &HostRuntime, text: &str) -> io::Result<String> {
    let (front, rest) = text.split_once('<').unwrap_or((text, ""));
    let mut whole = String::from_str(rt.alloc(), front)?;
    for piece in rest.split('<') {
        if let Some((inside, after)) = piece.split_once('>') {
            push_inside(rt, &mut whole, inside)?;
            whole.push_str(after)?;
        }
    }
    Ok(whole)
}

fn push_inside(rt: &HostRuntime, text: &mut String, inside: &str) -> io::Result<()> {
    if let Some(path) = inside.strip_prefix("file ") {
        let file = fs::read_to_string(rt, path)?;
        text.push_str(file.as_str())?;
        return Ok(());
    }
    match inside.split_once(' ') {
        Some((count, piece)) => push_repeated(text, count, piece)?,
        None => text.push_str(byte_named(inside))?,
    }
    Ok(())
}

fn byte_named(name: &str) -> &'static str {
    match name {
        "cr" => "\r",
        "del" => "\u{7f}",
        _ => "",
    }
}

fn push_repeated(text: &mut String, count: &str, piece: &str) -> Result<(), AllocError> {
    let count = count.parse::<u32>().unwrap_or(0);
    for number in 1..=count {
        push_numbered(text, number, piece)?;
    }
    Ok(())
}

fn push_numbered(text: &mut String, number: u32, piece: &str) -> Result<(), AllocError> {
    match piece.split_once('#') {
        Some((before, after)) => write!(text, "{before}{number}{after}"),
        None => text.push_str(piece),
    }
}
