//! What can be wrong with a `book.txt`.
ghost use Rattle.std.specs.Prelude.{◌≡◌};
ghost use Rattle.book.specs.declared.faults.BookFault.TheVariants.{OutOfMemory as no_memory};

use std::alloc::{AllocError, AllocFailed};
use std::fmt;
use thiserror::Error;

/// What is wrong with a line, or with the whole.
#[derive(Clone, Copy, Debug, PartialEq, Eq, Error)]
pub enum BookFault {
    #[error("a line begins with 'main', 'score', 'withdrawn' or '#'")]
    UnknownEntry,
    #[error("write 'main FILE', 'score NUMBER PATH FILE' or 'withdrawn NUMBER'")]
    WordCount,
    #[error("a number is written in decimal digits, from 1 to 4294967295")]
    BadNumber,
    #[error("a path has 1 to 64 bytes")]
    PathLength,
    #[error("another score has this path")]
    RepeatedPath,
    #[error("a book has at most 256 scores")]
    TooManyScores,
    #[error("there is a main score already")]
    SecondMain,
    #[error("there is no main score")]
    NoMain,
    #[error("no score has this number")]
    UnknownWithdrawn,
    #[error("out of memory")]
    OutOfMemory,
}

/// A fault and the line where it was found, counted from 1; no line where the fault is that of the whole.
#[derive(Clone, Copy, Debug, PartialEq, Eq)]
pub struct BookError {
    pub line: Option<usize>,
    pub fault: BookFault,
}

// By hand, here and below: clauses name the error that `?` makes, and a derived `From` has no clause.
impl From<AllocError> for BookFault {
    ghost from_gives = { λ _ r. r ≡ no_memory };

    fn from(_e: AllocError) -> BookFault {
        BookFault::OutOfMemory
    }
}

impl<T: Drop> From<AllocFailed<T>> for BookFault {
    ghost from_gives = { λ _ r. r ≡ no_memory };

    fn from(_e: AllocFailed<T>) -> BookFault {
        BookFault::OutOfMemory
    }
}

impl fmt::Display for BookError {
    fn fmt<W: fmt::Write>(&self, f: &mut fmt::Formatter<W>) -> fmt::Result {
        let fault = self.fault;
        match self.line {
            Some(line) => write!(f, "line {line}: {fault}"),
            None => write!(f, "{fault}"),
        }
    }
}

impl std::error::Error for BookError {}
