//! Parts of a slice of bytes. Each call takes any arguments: a part past the end is empty, and a byte past the end reads as 0.
#![tactic(auto)]

ghost use Rattle.std.specs.Prelude.{◌≡◌, ◌≤◌, length, take, drop, slice_index};
ghost use Rattle.slices.specs.Fields.{place_of, lacks as lacking, marked as marked_by};

pub mod lines;

/// A piece at the front, and what stands behind it.
#[derive(Clone, Copy, Debug, PartialEq, Eq)]
pub struct Cut<'a> {
    pub piece: &'a [u8],
    pub rest: &'a [u8],
}

/// The byte at a place, or 0 past the end.
pub fn byte_at(s: &[u8], i: usize) -> u8
    ensures value { result ≡ slice_index s.now i }
{
    s.get(i).copied().unwrap_or(0)
}

/// The first `n` bytes, or all where there are fewer, and what stands behind them.
pub fn cut_at(s: &[u8], n: usize) -> Cut<'_>
    ensures piece { result.piece.now ≡ take n s.now }
    ensures rest { result.rest.now ≡ drop n s.now }
{
    let (piece, rest) = s.split_at(n.min(s.len()));
    Cut { piece, rest }
}

/// The first `n` bytes, or all where there are fewer.
pub fn front(s: &[u8], n: usize) -> &[u8]
    ensures value { result.now ≡ take n s.now }
{
    &s[..n.min(s.len())]
}

/// What stands behind the first `n` bytes.
pub fn behind(s: &[u8], n: usize) -> &[u8]
    ensures value { result.now ≡ drop n s.now }
{
    &s[n.min(s.len())..]
}

/// The place of the first byte `b`, or the length where there is none.
pub fn place_of(s: &[u8], b: u8) -> usize
    ensures value { result ≡ place_of b s.now }
    ensures within { result ≤ length s.now }
{
    s.iter().position(|&x| x == b).unwrap_or(s.len())
}

/// Whether no byte is `b`.
pub fn lacks(s: &[u8], b: u8) -> bool
    ensures value { result ≡ lacking b s.now }
{
    !s.contains(&b)
}

/// Whether a space and then the byte `mark` stand at the front.
pub fn marked(s: &[u8], mark: u8) -> bool
    ensures value { result ≡ marked_by mark s.now }
{
    byte_at(s, 0) == b' ' && byte_at(s, 1) == mark
}
