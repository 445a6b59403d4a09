//! Scores in event notation from the input: each line as it was read and as it is printed again, then the piece that the score became.
//! A line `====` ends a score.
#![tactic(auto)]

use anyhow::anyhow;
use events::kinds::{EventKind, ScalarStyle};
use events::score::{Piece, Run, Stock};
use notation::builder::StockBuilder;
use notation::line::Line;
use notation::printing::print_line;
use notation::reading::read_line;
use slices::lines::Lines;
use slices::{behind, front};
use std::io::Read;

const MAX_INPUT: usize = 1_048_576;

/// The line that ends a score.
const SCORE_END: &[u8] = b"====";

/// Prints a line again, or why it cannot be printed.
fn show_again(rt: &HostRuntime, line: &Line) -> anyhow::Result<()> {
    match print_line(rt.alloc(), line) {
        Ok(bytes) => {
            let text = String::from_utf8_lossy(rt.alloc(), bytes.as_slice())?;
            println!(rt; "    {text}")?;
        }
        Err(e) => println!(rt; "    not printed: {e}")?,
    }
    Ok(())
}

/// Shows what was read of a line, and the line printed again.
fn show_line(rt: &HostRuntime, text: &[u8]) -> anyhow::Result<()> {
    let line = match read_line(rt.alloc(), text) {
        Ok(line) => line,
        Err(e) => {
            println!(rt; "not read: {e}")?;
            return Ok(());
        }
    };
    let kind = u32::from(line.kind);
    let style = u32::from(line.style);
    let anchor = String::from_utf8_lossy(rt.alloc(), line.anchor.as_slice())?;
    let tag = String::from_utf8_lossy(rt.alloc(), line.tag.as_slice())?;
    let value = String::from_utf8_lossy(rt.alloc(), line.value.as_slice())?;
    println!(rt; "kind {kind} anchor {anchor:?} tag {tag:?} style {style} value {value:?}")?;
    show_again(rt, &line)
}

/// The text of a run, as far as it stands in the bytes.
fn run_text(rt: &HostRuntime, bytes: &[u8], run: Run) -> anyhow::Result<String> {
    Ok(String::from_utf8_lossy(
        rt.alloc(),
        front(behind(bytes, run.start as usize), run.len as usize),
    )?)
}

/// Shows the events of a run.
fn show_events(rt: &HostRuntime, stock: Stock<'_>, run: Run) -> anyhow::Result<()> {
    for event in stock
        .events
        .iter()
        .skip(run.start as usize)
        .take(run.len as usize)
    {
        let kind = event.kind;
        let anchor = event.anchor;
        let style = event.style;
        let start = event.span.start;
        let end = event.span.end;
        let tag = run_text(rt, stock.bytes, event.tag)?;
        let value = run_text(rt, stock.bytes, event.value)?;
        println!(rt;
            "  {start}..{end} kind {kind} anchor {anchor} style {style} tag {tag:?} value {value:?}"
        )?;
    }
    Ok(())
}

/// Shows the marks of a run.
fn show_marks(rt: &HostRuntime, stock: Stock<'_>, run: Run) -> anyhow::Result<()> {
    for mark in stock
        .marks
        .iter()
        .skip(run.start as usize)
        .take(run.len as usize)
    {
        let name = run_text(rt, stock.bytes, mark.name)?;
        println!(rt; "  mark {name:?}")?;
    }
    Ok(())
}

/// Adds a score, or shows why it was refused.
fn add(rt: &HostRuntime, builder: &mut StockBuilder, text: &[u8]) -> anyhow::Result<Option<Piece>> {
    match builder.add_score(text) {
        Ok(piece) => Ok(Some(piece)),
        Err(e) => {
            println!(rt; "refused: {e}")?;
            Ok(None)
        }
    }
}

/// Adds a score, and shows its piece or why it was refused.
fn show_score(rt: &HostRuntime, builder: &mut StockBuilder, text: &[u8]) -> anyhow::Result<()> {
    let Some(piece) = add(rt, builder, text)? else {
        return Ok(());
    };
    let marks = piece.marks;
    let events = piece.events;
    let text_len = piece.text_len;
    let marks_start = marks.start;
    let marks_len = marks.len;
    let events_start = events.start;
    let events_len = events.len;
    println!(rt;
        "piece: marks {marks_start}+{marks_len} events {events_start}+{events_len} text {text_len}"
    )?;
    show_marks(rt, builder.stock(), marks)?;
    show_events(rt, builder.stock(), events)
}

/// Shows each score of the input: a part of it, up to the line that ends the score.
fn show_all(rt: &HostRuntime, text: &[u8]) -> anyhow::Result<()> {
    let mut builder = StockBuilder::new(rt.alloc());
    let mut rest = text;
    let mut len: usize = 0;
    for line in Lines::of(text) {
        let behind_line = len.saturating_add(line.len()).saturating_add(1);
        if line == SCORE_END {
            show_score(rt, &mut builder, front(rest, len))?;
            rest = behind(rest, behind_line);
            len = 0;
        } else {
            show_line(rt, line)?;
            len = behind_line;
        }
    }
    Ok(())
}

/// A scalar with this anchor, tag and value.
fn scalar(rt: &HostRuntime, anchor: &[u8], tag: &[u8], value: &[u8]) -> anyhow::Result<Line> {
    let anchor = Vec::from_slice(rt.alloc(), anchor)?;
    let tag = Vec::from_slice(rt.alloc(), tag)?;
    let value = Vec::from_slice(rt.alloc(), value)?;
    Ok(Line {
        kind: EventKind::Scalar,
        anchor,
        tag,
        style: ScalarStyle::Plain,
        value,
    })
}

/// Lines that cannot be printed, and one that can.
fn show_unprintable(rt: &HostRuntime) -> anyhow::Result<()> {
    show_again(rt, &scalar(rt, b"a b", b"", b"")?)?;
    show_again(rt, &scalar(rt, b"a\nb", b"", b"")?)?;
    show_again(rt, &scalar(rt, b"", b"a>b", b"")?)?;
    show_again(rt, &scalar(rt, b"", b"a\nb", b"")?)?;
    show_again(rt, &scalar(rt, b"a", b"!a b", b"1\n2\\\t\r\x08>")?)?;
    let mut line = scalar(rt, b"", b"", b"")?;
    line.kind = EventKind::Alias;
    show_again(rt, &line)?;
    line.kind = EventKind::StreamEnd;
    show_again(rt, &line)?;
    line.style = ScalarStyle::Folded;
    show_again(rt, &line)
}

/// A text, and behind it another that is repeated.
fn repeated(rt: &HostRuntime, first: &[u8], text: &[u8], count: u32) -> anyhow::Result<Vec<u8>> {
    let mut all = Vec::from_slice(rt.alloc(), first)?;
    for _ in 0..count {
        all.extend_from_slice(text)?;
    }
    Ok(all)
}

/// Adds a score, and shows how many events it has or why it was refused.
fn show_count(rt: &HostRuntime, builder: &mut StockBuilder, text: &[u8]) -> anyhow::Result<()> {
    if let Some(piece) = add(rt, builder, text)? {
        let count = piece.events.len;
        println!(rt; "added: {count}")?;
    }
    Ok(())
}

/// Scores at the bounds of a piece and of a stock.
fn show_bounds(rt: &HostRuntime) -> anyhow::Result<()> {
    let mut builder = StockBuilder::new(rt.alloc());
    show_count(
        rt,
        &mut builder,
        repeated(rt, b"", b"=VAL &a :x\n", 256)?.as_slice(),
    )?;
    show_count(
        rt,
        &mut builder,
        repeated(rt, b"", b"=VAL &a :x\n", 257)?.as_slice(),
    )?;
    show_count(
        rt,
        &mut builder,
        repeated(rt, b"", b"-SEQ\n", 8192)?.as_slice(),
    )?;
    show_count(
        rt,
        &mut builder,
        repeated(rt, b"", b"-SEQ\n", 8193)?.as_slice(),
    )?;
    let long = repeated(rt, b"=VAL :", b"0123456789", 60_000)?;
    show_count(rt, &mut builder, long.as_slice())?;
    show_count(rt, &mut builder, long.as_slice())?;
    show_count(
        rt,
        &mut builder,
        repeated(rt, b"=VAL :", b"0123456789", 104_858)?.as_slice(),
    )
}

fn run(rt: &HostRuntime) -> anyhow::Result<()> {
    let mut input = Vec::new(rt.alloc());
    rt.stdin().read_to_end(&mut input)?;
    if input.len() > MAX_INPUT {
        return Err(anyhow!("the input is too long"));
    }
    show_all(rt, input.as_slice())?;
    show_unprintable(rt)?;
    show_bounds(rt)
}

fn main(rt: HostRuntime) -> anyhow::Result<()> {
    run(&rt)
}
