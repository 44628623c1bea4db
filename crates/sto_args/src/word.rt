//! Words that are refused whatever the command is, and the word that is a flag.
ghost use Rattle.std.specs.Prelude.{◌≡◌, map, string_bytes, IfOk};
ghost use Rattle.std.specs.List.{list_any};
ghost use Rattle.sto_args.specs.Given.{is_refused, as_option, gives_flag};

use std::alloc::Global;
use sto_part::NoMemory;

/// Whether a word is `--`, or has one leading hyphen.
fn is_refused(word: &str) -> bool
    ensures { result ≡ is_refused word.now }
{
    match word.as_bytes() {
        [b'-'] | [b'-', b'-'] => true,
        [b'-', second, ..] => *second != b'-',
        _ => false,
    }
}

/// Whether one of the words is refused.
pub(crate) fn has_refused(words: &[&str]) -> bool
    ensures { result ≡ list_any (λ word. is_refused word.now) words.now }
{
    words.iter().any(|word| is_refused(word))
}

/// Whether a word gives `--json` a value.
fn gives_flag(word: &str) -> bool
    ensures { result ≡ gives_flag word.now }
{
    word.as_bytes().starts_with(b"--json=".as_slice())
}

/// Whether one of the words does so.
pub(crate) fn has_flag_value(words: &[String]) -> bool
    ensures { result ≡ list_any (λ word. gives_flag (string_bytes word)) words.now }
{
    words.iter().any(|word| gives_flag(word.as_str()))
}

/// A word as an option: `--json` has the empty value.
fn as_option(word: &str) -> &str
    ensures { result.now ≡ as_option word.now }
{
    if word == "--json" { "--json=" } else { word }
}

/// The words as options and their values.
pub(crate) fn as_options<'a>(alloc: Global, words: &'a [String]) -> Result<Vec<&'a str>, NoMemory>
    ensures { IfOk result (λ options. map (λ word. word.now) options.items
        ≡ map as_option (map (λ word. string_bytes word) words.entry.now)) }
{
    let mut options = Vec::new(alloc);
    for word in words {
        if options.push(as_option(word.as_str())).is_err() {
            return Err(NoMemory);
        }
    }
    Ok(options)
}

/// The words as texts.
pub(crate) fn texts_of<'a>(alloc: Global, words: &'a [String]) -> Result<Vec<&'a str>, NoMemory>
    ensures { IfOk result (λ texts. map (λ text. text.now) texts.items ≡ map (λ word. string_bytes word) words.entry.now) }
{
    let mut texts = Vec::new(alloc);
    for word in words {
        if texts.push(word.as_str()).is_err() {
            return Err(NoMemory);
        }
    }
    Ok(texts)
}
