//! The scores of a catalogue.
ghost use Rattle.std.specs.Prelude.{◌≡◌, ◌≤◌, true, [], ◌++◌, ◌∷◌, vec_len};
ghost use Rattle.std.specs.List.{list_any};
ghost use Rattle.book.specs.Books.{with_score};
ghost use Rattle.book.specs.Lookups.{distinct, first_unknown, number_is, path_is};
ghost use Rattle.book.specs.View.{Answers, said_score, said_scores};

use crate::faults::BookFault;
use crate::lines::{ScoreLine, Withdrawal};
use std::alloc::Global;

const MOST_SCORES: usize = 256;

/// The scores of a catalogue, in the order of their lines: at most 256, and no two of them with the same path.
#[derive(Drop)]
pub struct Scores {
    pub lines: Vec<ScoreLine>,
    ghost at_most_256_scores: { vec_len lines ≤ 256 },
    ghost paths_are_distinct: { distinct (said_scores lines.items) ≡ true },
}

impl Scores {
    pub(crate) fn new(heap: Global) -> Scores
        ensures empty { result.lines.items ≡ [] }
    {
        Scores {
            lines: Vec::new(heap),
        }
    }

    // Whether a score has this path.
    fn has_path(&self, path: &[u8]) -> bool
        ensures some_path_is_equal { result ≡ list_any (path_is path.now) (said_scores self.now.lines.items) }
    {
        self.lines.iter().any(|score| score.path.as_slice() == path)
    }

    // Whether a score has this number.
    fn has_number(&self, number: u32) -> bool
        ensures some_number_is_equal { result ≡ list_any (number_is number) (said_scores self.now.lines.items) }
    {
        self.lines.iter().any(|score| score.number == number)
    }

    /// The line of the first withdrawal of a number that no score has, if there is one.
    pub(crate) fn first_unknown(&self, withdrawn: &[Withdrawal]) -> Option<usize>
        ensures value { result ≡ first_unknown (said_scores self.now.lines.items) withdrawn.now }
    {
        withdrawn
            .iter()
            .find(|entry| !self.has_number(entry.number))
            .map(|entry| entry.line)
    }

    pub(crate) fn add(&mut self, score: ScoreLine) -> Result<(), BookFault>
        ensures value { Answers (λ _. said_scores self.new.lines.items) (with_score (said_score score) (said_scores self.old.lines.items)) result }
    {
        if self.has_path(score.path.as_slice()) {
            return Err(BookFault::RepeatedPath);
        }
        if self.lines.len() >= MOST_SCORES {
            return Err(BookFault::TooManyScores);
        }
        self.lines.push(score)?;
        Ok(())
    }
}
