//! What can be wrong with the text of a score.
ghost use Rattle.std.specs.Prelude.{◌≡◌};
ghost use Rattle.notation.specs.Causes.{fault_of};
ghost use Rattle.notation.specs.declared.fault.TextFault.TheVariants.{OutOfMemory as text_memory};

use crate::line::LineError;
use std::alloc::{AllocError, AllocFailed};
use thiserror::Error;

/// Why a score could not be added.
#[derive(Clone, Copy, Debug, PartialEq, Eq, Error)]
pub enum TextFault {
    /// A line could not be read.
    #[error("{0}")]
    Line(LineError),
    /// An alias names an anchor that no line before it in this score has.
    #[error("alias to an unknown anchor")]
    UnknownAnchor,
    /// The bytes of the stock would be more than 1,048,576.
    #[error("too many bytes")]
    TooManyBytes,
    /// The marks would be more than 256 in the score or more than 4,096 in the stock.
    #[error("too many anchors")]
    TooManyMarks,
    /// The events would be more than 8,192 in the score or more than 65,536 in the stock.
    #[error("too many events")]
    TooManyEvents,
    /// The text is longer than 1,048,576 bytes.
    #[error("the text is too long")]
    TextTooLong,
    /// No memory was left.
    #[error("out of memory")]
    OutOfMemory,
}

/// Why a score could not be added, and at which line of its text, counted from 1. A text that is too long is refused at line 1.
#[derive(Clone, Copy, Debug, PartialEq, Eq, Error)]
#[error("line {line}: {fault}")]
pub struct TextError {
    pub line: usize,
    pub fault: TextFault,
}

// By hand, here and below: clauses name the error that `?` makes, and a derived `From` has no clause.
impl From<LineError> for TextFault {
    ghost from_gives = { λ e r. r ≡ fault_of e };

    fn from(e: LineError) -> TextFault {
        match e {
            LineError::OutOfMemory => TextFault::OutOfMemory,
            _ => TextFault::Line(e),
        }
    }
}

impl From<AllocError> for TextFault {
    ghost from_gives = { λ _ r. r ≡ text_memory };

    fn from(_e: AllocError) -> TextFault {
        TextFault::OutOfMemory
    }
}

impl<T: Drop> From<AllocFailed<T>> for TextFault {
    ghost from_gives = { λ _ r. r ≡ text_memory };

    fn from(_e: AllocFailed<T>) -> TextFault {
        TextFault::OutOfMemory
    }
}
