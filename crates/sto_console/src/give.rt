//! A piece of the bytes that are left.
ghost use Rattle.std.specs.Prelude.{◌≡◌, ◌<◌, ◌≤◌, ◌+◌, [], ◌++◌, take, drop, length};

/// Copies to the front of the buffer as many bytes as are left from a place on, fit, and are allowed.
#[tactic(auto, using(crate::proofs::ToldLemmas::copied_front))]
pub(crate) fn give(bytes: &[u8], at: usize, buf: &mut [u8], most: usize) -> usize
    requires place { at ≤ length bytes.now }
    requires room { 0 < length buf.old }
    requires some { 0 < most }
    ensures fits { result ≤ length buf.new }
    ensures within { at + result ≤ length bytes.now }
    ensures taken { drop at bytes.now ≡ take result buf.new ++ drop (at + result) bytes.now }
    ensures end { result ≡ 0 → drop (at + result) bytes.now ≡ [] }
{
    let rest = &bytes[at..];
    let taken = rest.len().min(buf.len()).min(most);
    buf[..taken].copy_from_slice(&rest[..taken]);
    taken
}
