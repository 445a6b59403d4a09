//! The parts of a line, as they stand in its text.
use events::kinds::{EventKind, ScalarStyle};

/// What stands behind the opener of a line.
#[derive(Clone, Copy, Debug, PartialEq, Eq)]
pub enum Shape {
    /// Nothing.
    Bare,
    /// An anchor and a tag, if any.
    Start,
    /// An anchor and a tag, if any, and a value.
    Value,
    /// The name of an anchor.
    Name,
}

/// The style of a scalar, and its value as it is written.
#[derive(Clone, Copy, Debug, PartialEq, Eq)]
pub struct StyledText<'a> {
    pub style: ScalarStyle,
    pub text: &'a [u8],
}

/// All parts of a line; the value is still escaped.
#[derive(Clone, Copy, Debug, PartialEq, Eq)]
pub struct Parts<'a> {
    pub kind: EventKind,
    pub anchor: &'a [u8],
    pub tag: &'a [u8],
    pub style: ScalarStyle,
    pub value: &'a [u8],
}
