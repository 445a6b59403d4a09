//! A line of event notation, taken apart, and what can be wrong with one.
ghost use Rattle.std.specs.Prelude.{◌≡◌};
ghost use Rattle.notation.specs.declared.line.LineError.TheVariants.{OutOfMemory as line_memory};
ghost use Rattle.notation.specs.declared.line.PrintError.TheVariants.{OutOfMemory as print_memory};

use events::kinds::{EventKind, ScalarStyle};
use std::alloc::{AllocError, AllocFailed};
use thiserror::Error;

/// What a line says. An empty `anchor` is no anchor, and an empty `tag` no tag. On an alias, `anchor` is the name that it names.
/// `style` and `value` are those of a scalar; on any other line they are `Plain` and empty.
#[derive(Debug, PartialEq, Eq, Drop)]
pub struct Line {
    pub kind: EventKind,
    pub anchor: Vec<u8>,
    pub tag: Vec<u8>,
    pub style: ScalarStyle,
    pub value: Vec<u8>,
}

/// Why a line could not be read.
#[derive(Clone, Copy, Debug, PartialEq, Eq, Error)]
pub enum LineError {
    /// The text has a line break, so that it is not one line.
    #[error("a line break inside a line")]
    LineBreak,
    /// The first four bytes are no opener, as `+MAP` or `=VAL` is.
    #[error("unknown opener")]
    UnknownOpener,
    /// `&`, `*` or `<` with no name behind it.
    #[error("empty name")]
    EmptyName,
    /// A tag that is not closed by `>`.
    #[error("tag without its closing '>'")]
    UnclosedTag,
    /// An anchor or a tag on a line that takes none, or an alias that names nothing.
    #[error("an anchor, a tag or a name is missing or out of place")]
    BadProperty,
    /// A scalar with no value.
    #[error("scalar without a value")]
    MissingValue,
    /// A value that does not begin with one of `:`, `'`, `"`, `|` and `>`.
    #[error("unknown style of a scalar")]
    BadStyle,
    /// A backslash before a byte that it gives no meaning, or at the end.
    #[error("unknown escape")]
    BadEscape,
    /// Text behind the end of a line that is no scalar.
    #[error("text behind the end of the line")]
    TrailingText,
    /// No memory was left.
    #[error("out of memory")]
    OutOfMemory,
}

/// Why a line could not be printed.
#[derive(Clone, Copy, Debug, PartialEq, Eq, Error)]
pub enum PrintError {
    /// Printed, the line would not read back as it is.
    #[error("the line would not read back")]
    Unprintable,
    /// No memory was left.
    #[error("out of memory")]
    OutOfMemory,
}

// By hand, here and below: clauses name the error that `?` makes, and a derived `From` has no clause.
impl From<AllocError> for LineError {
    ghost from_gives = { λ _ r. r ≡ line_memory };

    fn from(_e: AllocError) -> LineError {
        LineError::OutOfMemory
    }
}

impl<T: Drop> From<AllocFailed<T>> for LineError {
    ghost from_gives = { λ _ r. r ≡ line_memory };

    fn from(_e: AllocFailed<T>) -> LineError {
        LineError::OutOfMemory
    }
}

impl From<AllocError> for PrintError {
    ghost from_gives = { λ _ r. r ≡ print_memory };

    fn from(_e: AllocError) -> PrintError {
        PrintError::OutOfMemory
    }
}

impl<T: Drop> From<AllocFailed<T>> for PrintError {
    ghost from_gives = { λ _ r. r ≡ print_memory };

    fn from(_e: AllocFailed<T>) -> PrintError {
        PrintError::OutOfMemory
    }
}
