//! The lines of a report, one after the other.
ghost use Rattle.std.specs.Prelude.{◌≡◌, ◌+◌, ◌<◌, ◌≤◌, ◌^◌, [], ◌∷◌, length, drop, MatchOption, IfSome, slice_get, Some, position, ◌==◌};
ghost use Rattle.sto_checker.specs.Lines.{lines_of, HasContent};

/// A line with its line feed, and without it.
#[derive(Clone, Copy)]
pub struct GivenLine<'a> {
    pub text: &'a [u8],
    pub content: &'a [u8],
}

/// The lines of a report that were read, and the bytes that are left.
#[derive(Drop)]
pub struct Reader<'a> {
    pub bytes: &'a [u8],
    rest: &'a [u8],
    pub read: u32,
    ghost few: { length bytes.now + 1 < 2 ^ 32 },
    ghost left: { lines_of rest.now ≡ drop read (lines_of bytes.now) },
    ghost within: { read ≤ length (lines_of bytes.now) },
}

#[tactic(auto, using(crate::proofs::Lines::few_lines, crate::proofs::Lines::left_none, crate::proofs::Lines::left_next, crate::proofs::Lines::left_more, crate::proofs::Lines::left_within))]
impl<'a> Reader<'a> {
    /// A report of which nothing was read.
    pub fn new(bytes: &'a [u8]) -> Reader<'a>
        requires { length bytes.now + 1 < 2 ^ 32 }
        ensures bytes { result.bytes.now ≡ bytes.entry.now }
        ensures read { result.read ≡ 0 }
    {
        Reader {
            bytes,
            rest: bytes,
            read: 0,
        }
    }

    /// The number of the next line, from 1.
    pub fn number(&self) -> u32
        ensures { result ≡ self.now.read + 1 }
    {
        self.read + 1
    }

    /// Reads the next line, also one without its line feed; there is none exactly where all lines were read.
    pub fn next_line(&mut self) -> Option<GivenLine<'a>>
        ensures same { self.new.bytes.now ≡ self.old.bytes.now }
        ensures line { MatchOption result ((length (lines_of self.old.bytes.now) ≡ self.old.read) × (self.new.read ≡ self.old.read))
            (λ line. (slice_get (lines_of self.old.bytes.now) self.old.read ≡ Some line.text.now)
            × HasContent line.text.now line.content.now × (self.new.read ≡ self.old.read + 1)) }
    {
        let (line, rest) = first_line(self.rest)?;
        self.rest = rest;
        self.read += 1;
        Some(line)
    }
}

// Where the first line feed is.
fn line_feed(bytes: &[u8]) -> Option<usize>
    ensures { result ≡ position (λ b. b == 10) bytes.now }
{
    bytes.iter().position(|b| *b == b'\n')
}

/// The first line, and what follows it.
pub fn first_line(bytes: &[u8]) -> Option<(GivenLine<'_>, &[u8])>
    ensures found { MatchOption result (lines_of bytes.now ≡ []) (λ found. (lines_of bytes.now ≡ found.0.text.now ∷ lines_of found.1.now)
        × HasContent found.0.text.now found.0.content.now) }
    ensures less { IfSome result (λ found. length found.1.now < length bytes.now) }
{
    if bytes.is_empty() {
        return None;
    }
    match line_feed(bytes) {
        Some(end) => {
            let line = GivenLine {
                text: &bytes[..end + 1],
                content: &bytes[..end],
            };
            Some((line, &bytes[end + 1..]))
        }
        None => {
            let line = GivenLine {
                text: bytes,
                content: bytes,
            };
            Some((line, &[]))
        }
    }
}
