//! A book as its `book.txt` describes it.
ghost use Rattle.std.specs.Prelude.{◌≡◌, true};
ghost use Rattle.std.specs.List.{list_all};
ghost use Rattle.book.specs.Lookups.{is_known};
ghost use Rattle.book.specs.View.{said_scores};

use crate::lines::Withdrawal;
use crate::scores::Scores;

/// A book: the file of its main score, the scores of its catalogue, and the numbers that are withdrawn.
/// Each withdrawn number is the number of a score.
#[derive(Drop)]
pub struct Book {
    pub main: Vec<u8>,
    pub scores: Scores,
    pub withdrawn: Vec<Withdrawal>,
    ghost withdrawn_numbers_are_known: { list_all (is_known (said_scores scores.lines.items)) withdrawn.items ≡ true },
}

/// A book while its lines are read.
#[derive(Drop)]
pub(crate) struct Draft {
    pub(crate) main: Option<Vec<u8>>,
    pub(crate) scores: Scores,
    pub(crate) withdrawn: Vec<Withdrawal>,
}
