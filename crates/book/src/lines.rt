//! What the lines of a book say.
ghost use Rattle.std.specs.Prelude.{◌<◌, ◌≤◌, length};

/// A score of the catalogue: its number, the path that inserts name it by, and its file in the folder of the book.
/// The number is not 0, and the path has 1 to 64 bytes.
#[derive(Debug, PartialEq, Eq, Drop)]
pub struct ScoreLine {
    pub number: u32,
    pub path: Vec<u8>,
    pub file: Vec<u8>,
    ghost number_not_zero: { 0 < number },
    ghost path_not_empty: { 0 < length path.items },
    ghost path_at_most_64_bytes: { length path.items ≤ 64 },
}

/// A number that is withdrawn, and the line that says so, counted from 1.
#[derive(Clone, Copy, Debug, PartialEq, Eq)]
pub struct Withdrawal {
    pub number: u32,
    pub line: usize,
}
