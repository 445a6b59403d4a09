//! Reads a list of calls on a shelf and a binder, one to a line, and prints what each answers.
//!
//! - `shelf`, `binder`: the calls that follow go to a new catalogue of this sort.
//! - `shelve PATH NUMBER MARKS EVENTS TEXT`: MARKS and EVENTS are runs `START+LEN`, TEXT is a length.
//! - `shelvemany N`: shelves N entries with paths of two bytes, numbers 1 to N and empty pieces.
//! - `bind ITEM..`: each item is some bytes. `"TEXT"` is its own bytes, `N/W` the number N in W bytes, the highest first; `xK` behind an item has it K times.
//! - `bindmany N`: binds bytes with N entries, as of `shelvemany`.
//! - `resolve PATH`, `withdraw NUMBER`.
//!
//! A PATH is an item. Empty lines, and lines that start with `#`, are copied. A line that cannot be read gives `bad line`.
#![tactic(auto)]

mod calls;
mod items;
mod tried;

use calls::{Call, read_call};
use std::alloc::Global;
use std::io::{BufRead, BufReader, BufWriter, Write};
use tried::Tried;

/// A line, and the call that it says, if it can be read.
#[derive(Drop)]
struct Line {
    text: String,
    call: Option<Call>,
}

fn read_lines(rt: &HostRuntime, heap: Global) -> anyhow::Result<Vec<Line>> {
    let mut lines = Vec::new(heap);
    for line in BufReader::new(heap, rt.stdin())?.lines(heap) {
        let text = line?;
        let call = read_call(heap, text.as_str()).ok();
        lines.push(Line { text, call })?;
    }
    Ok(lines)
}

fn answer_all(rt: &HostRuntime, heap: Global, lines: &[Line]) -> anyhow::Result<()> {
    let mut out = BufWriter::new(heap, rt.stdout())?;
    let mut tried = Tried::new();
    for line in lines {
        let answer = match &line.call {
            Some(call) => tried.answer(heap, line.text.as_str(), call)?,
            None => String::from_str(heap, "bad line")?,
        };
        out.write_all(answer.as_bytes())?;
        out.write_all(b"\n")?;
    }
    out.flush()?;
    Ok(())
}

fn main(rt: HostRuntime) -> anyhow::Result<()> {
    let heap = rt.alloc();
    let lines = read_lines(&rt, heap)?;
    answer_all(&rt, heap, lines.as_slice())
}
