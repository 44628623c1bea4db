//! The lines of a script, and the words of a line.
ghost use Rattle.std.specs.Prelude.{◌≡◌, ◌<◌, ◌≤◌, [], ◌∷◌, length, MatchOption, IfSome, position};
ghost use Rattle.std.specs.List.{slice_split};
ghost use Rattle.sto_syntax.specs.Lines.{lines_of, words_of, words_of_pieces, is_blank, is_line_feed};

/// Where the first line feed is.
fn line_feed(bytes: &[u8]) -> Option<usize>
    ensures { result ≡ position is_line_feed bytes.now }
{
    bytes.iter().position(|b| *b == b'\n')
}

/// The first line, and what follows it.
pub fn next_line(bytes: &[u8]) -> Option<(&[u8], &[u8])>
    ensures found { MatchOption result (lines_of bytes.now ≡ []) (λ found. lines_of bytes.now ≡ found.0.now ∷ lines_of found.1.now) }
    ensures less { IfSome result (λ found. length found.1.now < length bytes.now) }
    ensures within { IfSome result (λ found. length found.0.now ≤ length bytes.now) }
{
    if bytes.is_empty() {
        return None;
    }
    match line_feed(bytes) {
        Some(end) => Some((&bytes[..end], &bytes[end + 1..])),
        None => Some((bytes, &[])),
    }
}

/// Whether a byte separates words.
pub(crate) fn is_blank(byte: u8) -> bool
    ensures { result ≡ is_blank byte }
{
    byte == b'\t' || byte == b'\r' || byte == b' '
}

/// Where the first blank is.
fn blank(line: &[u8]) -> Option<usize>
    ensures { result ≡ position is_blank line.now }
{
    line.iter().position(|b| is_blank(*b))
}

/// What stands before the first blank, and after it.
fn first_piece(line: &[u8]) -> (&[u8], &[u8])
    ensures pieces { words_of line.now ≡ words_of_pieces (result.0.now ∷ slice_split is_blank result.1.now) }
    ensures less { 0 < length line.now → length result.1.now < length line.now }
{
    match blank(line) {
        Some(end) => (&line[..end], &line[end + 1..]),
        None => (line, &[]),
    }
}

/// The first word, and what follows it. None comes exactly where the line has no word.
pub fn next_word(line: &[u8]) -> Option<(&[u8], &[u8])>
    ensures found { MatchOption result (words_of line.now ≡ []) (λ found. words_of line.now ≡ found.0.now ∷ words_of found.1.now) }
    ensures less { IfSome result (λ found. length found.1.now < length line.now) }
{
    let mut rest = line;
    while !rest.is_empty() {
        let (piece, after) = first_piece(rest);
        match piece.first() {
            Some(b'#') => return None,
            Some(_) => return Some((piece, after)),
            None => rest = after,
        }
    }
    None
}
