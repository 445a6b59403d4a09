//! Reads a table of pieces, one to a line, and prints what the soundness check and the readers answer.
//!
//! A line is `BYTES | MARKS | EVENTS | PIECE | ASKED`; the last column may be left out. Empty lines, and lines that
//! start with `#`, are copied. A line that cannot be read gives `bad line`.
//!
//! - BYTES: a text, each byte of it a byte of the stock; or `*N`, N zero bytes.
//! - MARKS: the name of each mark, as a run `START+LEN` of the bytes.
//! - EVENTS: the kind of each event; then, each if wanted and in this order, `&ANCHOR` (`&FIRST..LAST` for one event
//!   with each of these anchors), `vSTART+LEN` (value), `tSTART+LEN` (tag), `ySTYLE`.
//! - A mark or an event with `xCOUNT` at its end stands COUNT times.
//! - PIECE: `marks START+LEN events START+LEN text LEN`; or `all`, for all marks and all events and a text of length 0.
//! - ASKED: `"NAME"` for the number of the last mark with the name, `#NUMBER` for the range of a node, `events` for the
//!   kinds of the piece's events, `marks` for the runs of its marks.
//!
//! An answer is `sound` or `rule` and a number, then `NUMBER=FIRST-LAST` for each node with a number, then what was asked.
#![tactic(auto)]

mod answers;
mod notation;

use answers::answer;
use notation::{Fault, read_case};
use std::alloc::{AllocError, Global};
use std::io;
use std::io::{BufRead, BufReader, BufWriter, Write};

fn answer_to_case(heap: Global, line: &str) -> Result<String, Fault> {
    let case = read_case(heap, line)?;
    answer(heap, &case)
}

fn answer_to_line(heap: Global, line: &str) -> Result<String, AllocError> {
    if line.is_empty() || line.starts_with('#') {
        return String::from_str(heap, line);
    }
    match answer_to_case(heap, line) {
        Ok(answer) => Ok(answer),
        Err(Fault::BadLine) => String::from_str(heap, "bad line"),
        Err(Fault::Memory(error)) => Err(error),
    }
}

fn main(rt: HostRuntime) -> io::Result<()> {
    let heap = rt.alloc();
    let mut out = BufWriter::new(heap, rt.stdout())?;
    for line in BufReader::new(heap, rt.stdin())?.lines(heap) {
        let text = line?;
        let answer = answer_to_line(heap, text.as_str())?;
        out.write_all(answer.as_bytes())?;
        out.write_all(b"\n")?;
    }
    out.flush()
}
