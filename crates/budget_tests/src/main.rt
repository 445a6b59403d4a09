//! Reads cases of the budget's enforcer, one to a line, and prints what it answers.
//!
//! A line is `LIMITS | COUNTING MERGE | INPUTS`. Empty lines, and lines that start with `#`, are copied. A line that cannot
//! be read gives `bad line: WHY`.
//!
//! - LIMITS: `NAME=NUMBER` for each limit that is not the standard one; `enforce_alias_anchor_ratio` is 0 or 1, and
//!   `max_reader_input_bytes` may be `-` for absent.
//! - COUNTING: `all-content` or `per-document`. MERGE: `merge`, `as-ordinary` or `error`.
//! - INPUTS: `r` for an alias reference, or the number of an event's kind and then, each if wanted and in this order,
//!   `&ANCHOR` (`&FIRST..LAST` for one event with each of these anchors), `vVALUE` and `tTAG` in hexadecimal, `ySTYLE`.
//!   An input with `xCOUNT` at its end stands COUNT times.
//!
//! If a limit is above its bound, the answer is `limit` and the number of the first such field. Else it is
//! `ANSWER | BREACHED | COUNTS`.
//!
//! - ANSWER: `ok` if no input is refused, or `at PLACE BREACH again TIMES`: the place of the first refused input, counted
//!   from 0, the breach, and how many later inputs got the same breach.
//! - BREACHED: the breach of the report, or `none`. A breach is its name and its counts.
//! - COUNTS: the report's events, aliases, anchors, documents, nodes, deepest depth, scalar bytes and merge keys.
#![tactic(auto)]

mod answers;
mod inputs;
mod runs;

use runs::answer;
use std::alloc::{AllocError, Global};
use std::io;
use std::io::{BufRead, BufReader, BufWriter, Write};

fn answer_to_line(heap: Global, line: &str) -> Result<String, AllocError> {
    if line.is_empty() || line.starts_with('#') {
        return String::from_str(heap, line);
    }
    match answer(heap, line) {
        Ok(text) => Ok(text),
        Err(why) => format!(in heap; "bad line: {why}"),
    }
}

fn main(rt: HostRuntime) -> io::Result<()> {
    let heap = rt.alloc();
    let mut out = BufWriter::new(heap, rt.stdout())?;
    for line in BufReader::new(heap, rt.stdin())?.lines(heap) {
        let text = line?;
        let answer = answer_to_line(heap, text.as_str())?;
        writeln!(out, "{answer}")?;
    }
    out.flush()
}
