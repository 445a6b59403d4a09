//! Reads lines of a tag, a tab and a value, and prints what each pair comes to.
//!
//! A third column is the number of the event's kind; without it the event is a scalar.
//! A line of the output is `none`, `refused` and the number, or `spec`, the path and the anchor, with tabs between.
#![tactic(auto)]

use events::kinds::EventKind;
use std::alloc::{AllocError, Global};
use std::io;
use std::io::{BufRead, BufReader, BufWriter, Write};
use tags::{IncludeSpec, insert, is_insert};

fn spec_line(heap: Global, spec: IncludeSpec) -> Result<String, AllocError> {
    let path = String::from_utf8_lossy(heap, spec.path)?;
    let anchor = String::from_utf8_lossy(heap, spec.anchor)?;
    format!(in heap; "spec\t{path}\t{anchor}\n")
}

fn answer_line<'a>(
    heap: Global,
    kind: EventKind,
    tag: &'a [u8],
    value: &'a [u8],
) -> Result<String, AllocError> {
    if !is_insert(kind, tag) {
        return String::from_str(heap, "none\n");
    }
    match insert(kind, tag, value) {
        Ok(None) => String::from_str(heap, "an insert without an answer\n"),
        Ok(Some(spec)) => spec_line(heap, spec),
        Err(error) => {
            let number = u32::from(error);
            format!(in heap; "refused\t{number}\n")
        }
    }
}

fn kind_of(column: Option<&str>) -> Option<EventKind> {
    column.map_or(Some(EventKind::Scalar), |text| {
        EventKind::try_from(text.parse::<u32>().ok()?).ok()
    })
}

fn line_for(heap: Global, line: &str) -> Result<String, AllocError> {
    let mut columns = line.split('\t');
    let tag = columns.next().unwrap_or("");
    let value = columns.next().unwrap_or("");
    let Some(kind) = kind_of(columns.next()) else {
        return String::from_str(heap, "no such kind\n");
    };
    answer_line(heap, kind, tag.as_bytes(), value.as_bytes())
}

fn main(rt: HostRuntime) -> io::Result<()> {
    let heap = rt.alloc();
    let mut out = BufWriter::new(heap, rt.stdout())?;
    for line in BufReader::new(heap, rt.stdin())?.lines(heap) {
        let text = line?;
        let answer = line_for(heap, text.as_str())?;
        out.write_all(answer.as_bytes())?;
    }
    out.flush()
}
