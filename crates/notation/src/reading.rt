//! Lines are read.
ghost use Rattle.std.specs.Prelude.{◌≡◌, true, ◌⊎◌, IfOk, Ok, Err, MatchResult};
ghost use Rattle.notation.specs.Lines.{without_extra, name_in, tag_in, value_in, scalar_in, end_in, named_in, tagged_in, rest_of, parts_of, line_of, printable};
ghost use Rattle.notation.specs.View.{said, part_of, valued_of, said_parts, map_ok};
ghost use Rattle.notation.specs.declared.line.LineError.TheVariants.{OutOfMemory};

use crate::escapes::unescape;
use crate::forms::{extra_of, fits, kind_of, name_mark, shape_of, style_of};
use crate::line::{Line, LineError};
use crate::parts::{Parts, Shape, StyledText};
use events::kinds::{EventKind, ScalarStyle};
use slices::{Cut, behind, byte_at, cut_at, front, lacks, marked, place_of};
use std::alloc::Global;

fn without_extra(kind: EventKind, rest: &[u8]) -> &[u8]
    ensures value { result.now ≡ without_extra kind rest.now }
{
    let extra = extra_of(kind);
    if front(rest, extra.len()) == extra {
        return behind(rest, extra.len());
    }
    rest
}

fn named_in(s: &[u8]) -> Result<Cut<'_>, LineError>
    ensures value { map_ok part_of result ≡ named_in s.now }
{
    let end = place_of(s, b' ');
    if end == 0 {
        return Err(LineError::EmptyName);
    }
    Ok(cut_at(s, end))
}

fn name_in(mark: u8, s: &[u8]) -> Result<Cut<'_>, LineError>
    ensures value { map_ok part_of result ≡ name_in mark s.now }
{
    if marked(s, mark) {
        return named_in(behind(s, 2));
    }
    Ok(Cut {
        piece: b"",
        rest: s,
    })
}

fn tagged_in(s: &[u8]) -> Result<Cut<'_>, LineError>
    ensures value { map_ok part_of result ≡ tagged_in s.now }
{
    if lacks(s, b'>') {
        return Err(LineError::UnclosedTag);
    }
    let end = place_of(s, b'>');
    if end == 0 {
        return Err(LineError::EmptyName);
    }
    Ok(Cut {
        piece: front(s, end),
        rest: behind(s, end + 1),
    })
}

fn tag_in(s: &[u8]) -> Result<Cut<'_>, LineError>
    ensures value { map_ok part_of result ≡ tag_in s.now }
{
    if marked(s, b'<') {
        return tagged_in(behind(s, 2));
    }
    Ok(Cut {
        piece: b"",
        rest: s,
    })
}

fn scalar_in(s: &[u8]) -> Result<StyledText<'_>, LineError>
    ensures value { map_ok valued_of result ≡ scalar_in s.now }
{
    if byte_at(s, 0) != b' ' {
        return Err(LineError::MissingValue);
    }
    let style = style_of(byte_at(s, 1)).ok_or(LineError::BadStyle)?;
    Ok(StyledText {
        style,
        text: behind(s, 2),
    })
}

fn end_in(s: &[u8]) -> Result<StyledText<'_>, LineError>
    ensures value { map_ok valued_of result ≡ end_in s.now }
{
    if s.is_empty() {
        return Ok(StyledText {
            style: ScalarStyle::Plain,
            text: b"",
        });
    }
    Err(LineError::TrailingText)
}

fn value_in(shape: Shape, s: &[u8]) -> Result<StyledText<'_>, LineError>
    ensures value { map_ok valued_of result ≡ value_in shape s.now }
{
    match shape {
        Shape::Value => scalar_in(s),
        _ => end_in(s),
    }
}

fn rest_of(kind: EventKind, s: &[u8]) -> Result<Parts<'_>, LineError>
    ensures value { map_ok said_parts result ≡ rest_of kind s.now }
{
    let shape = shape_of(kind);
    let name = name_in(name_mark(shape), s)?;
    let tag = tag_in(name.rest)?;
    let value = value_in(shape, tag.rest)?;
    if !fits(shape, name.piece, tag.piece) {
        return Err(LineError::BadProperty);
    }
    Ok(Parts {
        kind,
        anchor: name.piece,
        tag: tag.piece,
        style: value.style,
        value: value.text,
    })
}

/// The parts of a line, its value still escaped.
fn parts_of(bytes: &[u8]) -> Result<Parts<'_>, LineError>
    ensures value { map_ok said_parts result ≡ parts_of bytes.now }
{
    let kind = kind_of(front(bytes, 4)).ok_or(LineError::UnknownOpener)?;
    rest_of(kind, without_extra(kind, behind(bytes, 4)))
}

/// Reads a line, given without the line feed that ends it. A line that was read can be printed.
pub fn read_line(heap: Global, bytes: &[u8]) -> Result<Line, LineError>
    ensures is_the_reading_of_the_line { MatchResult result (λ l. line_of bytes.now ≡ Ok (said l)) (λ e. (e ≡ OutOfMemory) ⊎ (line_of bytes.now ≡ Err e)) }
    ensures prints_again { IfOk result (λ l. printable (said l) ≡ true) }
{
    if !lacks(bytes, b'\n') {
        return Err(LineError::LineBreak);
    }
    let parts = parts_of(bytes)?;
    let value = unescape(heap, parts.value)?;
    let anchor = Vec::from_slice(heap, parts.anchor)?;
    let tag = Vec::from_slice(heap, parts.tag)?;
    Ok(Line {
        kind: parts.kind,
        anchor,
        tag,
        style: parts.style,
        value,
    })
}
