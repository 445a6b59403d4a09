//! What the reader of include tags answers.
use std::error::Error;
use std::fmt;

/// The form of a tag. The fragment is what follows the tag's first `#`, as a part of the tag's own bytes.
/// All four forms have names, as in serde-saphyr: as an `Option` of a `Result` of an `Option` they would be no plainer.
#[derive(Clone, Copy, Debug, PartialEq, Eq)]
pub enum IncludeTag<'a> {
    /// No include tag.
    NotInclude,
    /// An include word alone.
    Plain,
    /// An include word, `#`, and the fragment, which has at least one byte.
    WithFragment(&'a [u8]),
    /// An include word and `#`, with nothing behind it.
    InvalidFragment,
}

/// The score that an insert names, and the anchor of the passage in it. Both are parts of the bytes that were given.
#[derive(Clone, Copy, Debug, PartialEq, Eq)]
pub struct IncludeSpec<'a> {
    pub path: &'a [u8],
    pub anchor: &'a [u8],
}

/// Why an include tag and its value make no spec.
#[derive(Clone, Copy, Debug, PartialEq, Eq)]
pub enum TagError {
    /// Nothing follows the tag's `#`.
    EmptyFragment,
    /// The tag has a `#`, and so has the value.
    HashInValue,
    /// Path or anchor is missing or empty.
    IncompleteSpec,
}

impl fmt::Display for TagError {
    fn fmt<W: fmt::Write>(&self, f: &mut fmt::Formatter<W>) -> fmt::Result {
        f.write_str(match self {
            TagError::EmptyFragment => "nothing after the tag's first '#'",
            TagError::HashInValue => "a '#' in the tag and in the value",
            TagError::IncompleteSpec =>
                "a path and an anchor are wanted, and one of them is missing",
        })
    }
}

impl Error for TagError {}
