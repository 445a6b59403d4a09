//! The kinds of events and the styles of scalars, decoded from their numbers.
ghost use Rattle.std.specs.Prelude.{◌≡◌, ◌-◌, ◌^◌, min};
ghost use Rattle.events.specs.Kinds.{kind_number, step_of, after, style_number};
ghost use Rattle.events.specs.Numbers.{DecodesKind, DecodesStyle};

use std::error::Error;
use std::fmt;

/// What an event is.
#[derive(Clone, Copy, Debug, PartialEq, Eq)]
pub enum EventKind {
    StreamStart,
    StreamEnd,
    DocumentStart,
    DocumentEnd,
    Alias,
    Scalar,
    SequenceStart,
    SequenceEnd,
    MappingStart,
    MappingEnd,
}

/// How a scalar is written.
#[derive(Clone, Copy, Debug, PartialEq, Eq)]
pub enum ScalarStyle {
    Plain,
    SingleQuoted,
    DoubleQuoted,
    Literal,
    Folded,
}

/// What an event can open, and close again.
#[derive(Clone, Copy, Debug, Default, PartialEq, Eq)]
pub enum Container {
    #[default]
    Sequence,
    Mapping,
}

/// The rules of a sound piece, in the order in which they are asked.
#[derive(Clone, Copy, Debug, PartialEq, Eq)]
pub enum Rule {
    /// Sizes hold, runs and ranges lie inside the lists, kinds and styles are known.
    Sizes,
    /// Sequences and mappings pair and nest, and stream and document events stand outside of them.
    Nesting,
    /// The numbers carried by nodes are 1, 2, .. in order, as many as there are marks.
    Numbering,
    /// An alias names a number from 1 to the highest carried before it.
    Aliases,
}

/// A number that is that of no kind of event.
#[derive(Clone, Copy, Debug, PartialEq, Eq)]
pub struct UnknownKind(pub u32);

/// A number that is that of no style of scalar.
#[derive(Clone, Copy, Debug, PartialEq, Eq)]
pub struct UnknownStyle(pub u32);

impl TryFrom<u32> for EventKind {
    type Error = UnknownKind;

    ghost try_from_gives = { DecodesKind };

    fn try_from(number: u32) -> Result<Self, UnknownKind> {
        match number {
            0 => Ok(EventKind::StreamStart),
            1 => Ok(EventKind::StreamEnd),
            2 => Ok(EventKind::DocumentStart),
            3 => Ok(EventKind::DocumentEnd),
            4 => Ok(EventKind::Alias),
            5 => Ok(EventKind::Scalar),
            6 => Ok(EventKind::SequenceStart),
            7 => Ok(EventKind::SequenceEnd),
            8 => Ok(EventKind::MappingStart),
            9 => Ok(EventKind::MappingEnd),
            _ => Err(UnknownKind(number)),
        }
    }
}

impl From<EventKind> for u32 {
    ghost from_gives = { λ kind number. number ≡ kind_number kind };

    fn from(kind: EventKind) -> u32 {
        kind as u32
    }
}

impl EventKind {
    /// The step in depth: 1 at a start, -1 at an end, else 0.
    pub fn step(self) -> i32
        ensures is_the_step_of_the_kind { result ≡ step_of self }
    {
        match self {
            EventKind::SequenceStart | EventKind::MappingStart => 1,
            EventKind::SequenceEnd | EventKind::MappingEnd => -1,
            _ => 0,
        }
    }

    /// The depth after an event of this kind: never below 0, and at most the largest `u32`.
    pub fn depth_after(self, depth: u32) -> u32
        ensures moves_the_depth_by_the_step { result ≡ min (after self depth) (2 ^ 32 - 1) }
    {
        depth.saturating_add_signed(self.step())
    }
}

impl TryFrom<u32> for ScalarStyle {
    type Error = UnknownStyle;

    ghost try_from_gives = { DecodesStyle };

    fn try_from(number: u32) -> Result<Self, UnknownStyle> {
        match number {
            0 => Ok(ScalarStyle::Plain),
            1 => Ok(ScalarStyle::SingleQuoted),
            2 => Ok(ScalarStyle::DoubleQuoted),
            3 => Ok(ScalarStyle::Literal),
            4 => Ok(ScalarStyle::Folded),
            _ => Err(UnknownStyle(number)),
        }
    }
}

impl From<ScalarStyle> for u32 {
    ghost from_gives = { λ style number. number ≡ style_number style };

    fn from(style: ScalarStyle) -> u32 {
        style as u32
    }
}

impl fmt::Display for UnknownKind {
    fn fmt<W: fmt::Write>(&self, f: &mut fmt::Formatter<W>) -> fmt::Result {
        write!(f, "no kind of event has number {}", self.0)
    }
}

impl Error for UnknownKind {}

impl fmt::Display for UnknownStyle {
    fn fmt<W: fmt::Write>(&self, f: &mut fmt::Formatter<W>) -> fmt::Result {
        write!(f, "no style of scalar has number {}", self.0)
    }
}

impl Error for UnknownStyle {}
