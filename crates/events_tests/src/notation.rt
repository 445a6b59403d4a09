//! Reads a line of the table as a stock, a piece of it and what is asked.
use events::score::{Event, Mark, Piece, Run, Span};
use std::alloc::{AllocError, AllocFailed, Global};
use std::num::{ParseIntError, TryFromIntError};

/// Why a line has no answer.
#[derive(Drop)]
pub enum Fault {
    BadLine,
    Memory(AllocError),
}

impl From<AllocError> for Fault {
    fn from(error: AllocError) -> Fault {
        Fault::Memory(error)
    }
}

impl<T: Drop> From<AllocFailed<T>> for Fault {
    fn from(_refused: AllocFailed<T>) -> Fault {
        Fault::Memory(AllocError)
    }
}

impl From<ParseIntError> for Fault {
    fn from(_error: ParseIntError) -> Fault {
        Fault::BadLine
    }
}

impl From<TryFromIntError> for Fault {
    fn from(_error: TryFromIntError) -> Fault {
        Fault::BadLine
    }
}

/// A line of the table.
#[derive(Drop)]
pub struct Case<'a> {
    pub bytes: Vec<u8>,
    pub marks: Vec<Mark>,
    pub events: Vec<Event>,
    pub piece: Piece,
    pub asked: &'a str,
}

/// What stands before a sign, and what stands after it if it is there.
fn cut<'a>(text: &'a str, sign: &str) -> (&'a str, Option<&'a str>) {
    text.split_once(sign)
        .map_or((text, None), |(before, after)| (before, Some(after)))
}

/// What stands before and after a sign that has to be there.
fn parts<'a>(text: &'a str, sign: &str) -> Result<(&'a str, &'a str), Fault> {
    text.split_once(sign).ok_or(Fault::BadLine)
}

fn number_or(text: Option<&str>, missing: u32) -> Result<u32, Fault> {
    Ok(text.map_or(Ok(missing), |digits| digits.parse::<u32>())?)
}

fn read_run(text: &str) -> Result<Run, Fault> {
    let (start, len) = parts(text, "+")?;
    Ok(Run {
        start: start.parse::<u32>()?,
        len: len.parse::<u32>()?,
    })
}

fn run_or_empty(text: Option<&str>) -> Result<Run, Fault> {
    text.map_or(Ok(Run::default()), |run| read_run(run))
}

fn push_times<T: Copy>(list: &mut Vec<T>, item: T, count: u32) -> Result<(), Fault> {
    for _ in 0..count {
        list.push(item)?;
    }
    Ok(())
}

fn read_bytes(heap: Global, column: &str) -> Result<Vec<u8>, Fault> {
    let mut bytes = Vec::new(heap);
    match column.strip_prefix("*") {
        Some(count) => push_times(&mut bytes, 0, count.parse::<u32>()?)?,
        None => bytes.extend_from_slice(column.as_bytes())?,
    }
    Ok(bytes)
}

fn read_marks(heap: Global, column: &str) -> Result<Vec<Mark>, Fault> {
    let mut marks = Vec::new(heap);
    for token in column.split_whitespace() {
        let (name, count) = cut(token, "x");
        let mark = Mark {
            name: read_run(name)?,
        };
        push_times(&mut marks, mark, number_or(count, 1)?)?;
    }
    Ok(marks)
}

/// Reads the events of a token, without its count: the first one, and the last one's anchor.
fn read_event(token: &str) -> Result<(Event, u32), Fault> {
    let (token, style) = cut(token, "y");
    let (token, tag) = cut(token, "t");
    let (token, value) = cut(token, "v");
    let (kind, anchors) = cut(token, "&");
    let (first, last) = cut(anchors.unwrap_or("0"), "..");
    let anchor = first.parse::<u32>()?;
    let event = Event {
        kind: kind.parse::<u32>()?,
        anchor,
        value: run_or_empty(value)?,
        tag: run_or_empty(tag)?,
        style: number_or(style, 0)?,
        span: Span::default(),
    };
    Ok((event, number_or(last, anchor)?))
}

fn push_events(events: &mut Vec<Event>, token: &str) -> Result<(), Fault> {
    let (token, count) = cut(token, "x");
    let times = number_or(count, 1)?;
    let (mut event, last) = read_event(token)?;
    for anchor in event.anchor..=last {
        event.anchor = anchor;
        push_times(events, event, times)?;
    }
    Ok(())
}

fn read_events(heap: Global, column: &str) -> Result<Vec<Event>, Fault> {
    let mut events = Vec::new(heap);
    for token in column.split_whitespace() {
        push_events(&mut events, token)?;
    }
    Ok(events)
}

/// The run of a whole list.
fn whole(len: usize) -> Result<Run, Fault> {
    let len = u32::try_from(len)?;
    Ok(Run { start: 0, len })
}

fn read_piece(column: &str, marks: usize, events: usize) -> Result<Piece, Fault> {
    if column == "all" {
        return Ok(Piece {
            marks: whole(marks)?,
            events: whole(events)?,
            text_len: 0,
        });
    }
    let runs = column.strip_prefix("marks ").ok_or(Fault::BadLine)?;
    let (marks, rest) = parts(runs, " events ")?;
    let (events, text) = parts(rest, " text ")?;
    Ok(Piece {
        marks: read_run(marks)?,
        events: read_run(events)?,
        text_len: text.parse::<u32>()?,
    })
}

/// Reads a line that is not empty and not a comment.
pub fn read_case<'a>(heap: Global, line: &'a str) -> Result<Case<'a>, Fault> {
    let (bytes, rest) = parts(line, "|")?;
    let (marks, rest) = parts(rest, "|")?;
    let (events, rest) = parts(rest, "|")?;
    let (piece, asked) = cut(rest, "|");
    let bytes = read_bytes(heap, bytes.trim())?;
    let marks = read_marks(heap, marks)?;
    let events = read_events(heap, events)?;
    let piece = read_piece(piece.trim(), marks.len(), events.len())?;
    Ok(Case {
        bytes,
        marks,
        events,
        piece,
        asked: asked.unwrap_or(""),
    })
}
