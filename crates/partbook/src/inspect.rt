//! The inspection of a score: its size, its marks, its soundness and its inserts.
use crate::score::Score;
use crate::shown::Shown;
use events::score::{Event, Mark, Piece};
use events::sound::check;
use std::fmt;
use tags::answers::{IncludeSpec, TagError};
use tags::insert;

fn write_mark<W: fmt::Write>(out: &mut W, bytes: &[u8], number: usize, mark: Mark) -> fmt::Result {
    match mark.name.part_of(bytes) {
        Some(name) => {
            let name = Shown(name);
            writeln!(out, "  mark {number}: {name}")
        }
        None => writeln!(out, "  mark {number}: its name lies outside the stock"),
    }
}

fn write_marks<W: fmt::Write>(out: &mut W, bytes: &[u8], marks: &[Mark]) -> fmt::Result {
    for (i, mark) in marks.iter().enumerate() {
        write_mark(out, bytes, i.saturating_add(1), *mark)?;
    }
    Ok(())
}

fn write_soundness<W: fmt::Write>(out: &mut W, score: Score<'_>) -> fmt::Result {
    match check(score.stock, score.piece) {
        Ok(_) => writeln!(out, "  sound"),
        Err(rule) => {
            let number = u32::from(rule);
            writeln!(out, "  not sound: rule {number}, {rule}")
        }
    }
}

fn write_insert<W: fmt::Write>(out: &mut W, place: usize, spec: IncludeSpec<'_>) -> fmt::Result {
    let path = Shown(spec.path);
    let anchor = Shown(spec.anchor);
    writeln!(out, "  insert at {place}: path {path}, anchor {anchor}")
}

fn write_refusal<W: fmt::Write>(out: &mut W, place: usize, error: TagError) -> fmt::Result {
    let number = u32::from(error);
    writeln!(out, "  insert at {place}: refusal {number}, {error}")
}

fn write_if_insert<W: fmt::Write>(
    out: &mut W,
    bytes: &[u8],
    place: usize,
    event: &Event,
) -> fmt::Result {
    let Some(kind) = event.kind() else {
        return Ok(());
    };
    let Some(tag) = event.tag.part_of(bytes) else {
        return Ok(());
    };
    let Some(value) = event.value.part_of(bytes) else {
        return Ok(());
    };
    match insert(kind, tag, value) {
        Ok(None) => Ok(()),
        Ok(Some(spec)) => write_insert(out, place, spec),
        Err(error) => write_refusal(out, place, error),
    }
}

fn write_inserts<W: fmt::Write>(out: &mut W, bytes: &[u8], events: &[Event]) -> fmt::Result {
    for (place, event) in events.iter().enumerate() {
        write_if_insert(out, bytes, place, event)?;
    }
    Ok(())
}

fn write_size<W: fmt::Write>(out: &mut W, piece: Piece) -> fmt::Result {
    let events = piece.events.len;
    let marks = piece.marks.len;
    let text = piece.text_len;
    writeln!(
        out,
        "  {events} events, {marks} marks, {text} bytes of text"
    )
}

/// Writes what is to be said of a score: its size, its marks, whether it is sound, and its inserts.
pub fn write_score<W: fmt::Write>(out: &mut W, score: Score<'_>) -> fmt::Result {
    let Score { stock, piece } = score;
    write_size(out, piece)?;
    if let Some(marks) = piece.marks.part_of(stock.marks) {
        write_marks(out, stock.bytes, marks)?;
    }
    write_soundness(out, score)?;
    if let Some(events) = piece.events.part_of(stock.events) {
        write_inserts(out, stock.bytes, events)?;
    }
    Ok(())
}
