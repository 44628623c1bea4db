//! The words of a line.
use std::alloc::{AllocError, Global};

// Adds the words that have blanks between them.
fn push_words<'a>(words: &mut Vec<&'a str>, piece: &'a str) -> Result<(), AllocError> {
    for word in piece.split_whitespace() {
        words.push(word)?;
    }
    Ok(())
}

/// The words of a line, with blanks between them. What stands between two quotes is a word, as in a shell.
pub fn words_in<'a>(alloc: Global, line: &'a str) -> Result<Vec<&'a str>, AllocError> {
    let mut words = Vec::new(alloc);
    for (place, piece) in line.split('\'').enumerate() {
        if place % 2 == 0 {
            push_words(&mut words, piece)?;
        } else {
            words.push(piece)?;
        }
    }
    Ok(words)
}
