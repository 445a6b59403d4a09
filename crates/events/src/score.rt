//! The plain data of a stock. Numbers are kept as they were given, good or bad: the soundness check judges them.
ghost use Rattle.std.specs.Prelude.{◌≡◌};

use crate::kinds::EventKind;

/// A run of a list: where it starts, and how many items it has.
#[derive(Clone, Copy, Debug, Default, PartialEq, Eq)]
pub struct Run {
    pub start: u32,
    pub len: u32,
}

/// A mark: the name of an anchor, as a run of the stock's bytes.
#[derive(Clone, Copy, Debug, PartialEq, Eq)]
pub struct Mark {
    pub name: Run,
}

/// Where an event stood in its text. It is only handed on.
#[derive(Clone, Copy, Debug, Default, PartialEq, Eq)]
pub struct Span {
    pub start: u32,
    pub end: u32,
}

/// An event of a score. `anchor` is 0 where there is none, and on an alias the number that it names; a `tag` of length 0 is no tag.
#[derive(Clone, Copy, Debug, PartialEq, Eq)]
pub struct Event {
    pub kind: u32,
    pub anchor: u32,
    pub value: Run,
    pub tag: Run,
    pub style: u32,
    pub span: Span,
}

impl Event {
    ghost use Rattle.events.specs.Scores.{kind};

    /// The kind of the event, where its number is that of one.
    pub fn kind(self) -> Option<EventKind>
        ensures is_the_kind_of_the_event { result ≡ kind self }
    {
        EventKind::try_from(self.kind).ok()
    }
}

/// A piece: the runs of marks and of events of one score, and the length of its text.
#[derive(Clone, Copy, Debug, Default, PartialEq, Eq)]
pub struct Piece {
    pub marks: Run,
    pub events: Run,
    pub text_len: u32,
}

/// A stock: the three lists that the scores of a book share.
#[derive(Clone, Copy)]
pub struct Stock<'a> {
    pub bytes: &'a [u8],
    pub marks: &'a [Mark],
    pub events: &'a [Event],
}

/// The range of a node: the places, in its piece, of its first and its last event.
#[derive(Clone, Copy, Debug, Default, PartialEq, Eq)]
pub struct NodeRange {
    pub first: u32,
    pub last: u32,
}
