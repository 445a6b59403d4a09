//! Writes the answers to a line of the table.
use crate::notation::{Case, Fault};
use events::score::{NodeRange, Piece, Stock};
use events::sound::{NodeTable, SoundPiece, check};
use std::alloc::{AllocError, Global};

fn range_text(heap: Global, range: Option<NodeRange>) -> Result<String, AllocError> {
    let Some(range) = range else {
        return String::from_str(heap, "none");
    };
    let first = range.first;
    let last = range.last;
    format!(in heap; "{first}-{last}")
}

/// The ranges of all nodes with numbers, each with a space before it.
fn ranges(heap: Global, nodes: &NodeTable) -> Result<String, AllocError> {
    let mut text = String::new(heap);
    for number in 1..257usize {
        let found = nodes.range(number);
        if found.is_none() {
            break;
        }
        let range = range_text(heap, found)?;
        text.push_str(format!(in heap; " {number}={range}")?.as_str())?;
    }
    Ok(text)
}

/// The kinds of the events, with commas between.
fn kinds(heap: Global, sound: SoundPiece) -> Result<String, AllocError> {
    let mut text = String::from_str(heap, "events=")?;
    let mut sign = "";
    for event in sound.events() {
        let kind = event.kind;
        text.push_str(format!(in heap; "{sign}{kind}")?.as_str())?;
        sign = ",";
    }
    Ok(text)
}

/// The runs of the marks' names, with commas between.
fn mark_runs(heap: Global, sound: SoundPiece) -> Result<String, AllocError> {
    let mut text = String::from_str(heap, "marks=")?;
    let mut sign = "";
    for mark in sound.marks() {
        let start = mark.name.start;
        let len = mark.name.len;
        text.push_str(format!(in heap; "{sign}{start}+{len}")?.as_str())?;
        sign = ",";
    }
    Ok(text)
}

fn mark_named(heap: Global, sound: SoundPiece, name: &str) -> Result<String, AllocError> {
    match sound.last_mark_named(name.as_bytes()) {
        Some(number) => format!(in heap; "\"{name}\"={number}"),
        None => format!(in heap; "\"{name}\"=none"),
    }
}

/// The name between two quotes.
fn quoted(ask: &str) -> Option<&str> {
    ask.strip_prefix("\"")?.strip_suffix("\"")
}

fn answer_to(
    heap: Global,
    sound: SoundPiece,
    nodes: &NodeTable,
    ask: &str,
) -> Result<String, Fault> {
    if ask == "events" {
        return Ok(kinds(heap, sound)?);
    }
    if ask == "marks" {
        return Ok(mark_runs(heap, sound)?);
    }
    if let Some(name) = quoted(ask) {
        return Ok(mark_named(heap, sound, name)?);
    }
    let number = ask
        .strip_prefix("#")
        .ok_or(Fault::BadLine)?
        .parse::<usize>()?;
    let range = range_text(heap, nodes.range(number))?;
    Ok(format!(in heap; "#{number}={range}")?)
}

/// The empty piece of an empty stock.
fn nothing() -> Result<SoundPiece<'static>, Fault> {
    let stock = Stock {
        bytes: &[],
        marks: &[],
        events: &[],
    };
    check(stock, Piece::default()).map_err(|_| Fault::BadLine)
}

/// A verdict, the ranges of the nodes of a piece and what is asked of it, with spaces between.
fn answers(heap: Global, verdict: &str, sound: SoundPiece, asked: &str) -> Result<String, Fault> {
    let nodes = sound.nodes();
    let mut text = String::from_str(heap, verdict)?;
    text.push_str(ranges(heap, &nodes)?.as_str())?;
    for ask in asked.split_whitespace() {
        text.push_str(" ")?;
        text.push_str(answer_to(heap, sound, &nodes, ask)?.as_str())?;
    }
    Ok(text)
}

/// The verdict on a case, the ranges of its nodes and what it asks. Where the piece is not sound, an empty one is asked.
pub fn answer(heap: Global, case: &Case) -> Result<String, Fault> {
    let stock = Stock {
        bytes: case.bytes.as_slice(),
        marks: case.marks.as_slice(),
        events: case.events.as_slice(),
    };
    match check(stock, case.piece) {
        Ok(sound) => answers(heap, "sound", sound, case.asked),
        Err(rule) => {
            let number = u32::from(rule);
            let verdict = format!(in heap; "rule {number}")?;
            answers(heap, verdict.as_str(), nothing()?, case.asked)
        }
    }
}
