//! The report on a book.
use crate::inspect::write_score;
use crate::load::Loaded;
use crate::shown::Shown;
use book::lines::{ScoreLine, Withdrawal};
use book::lookups::is_withdrawn;
use std::fmt;

fn write_title<W: fmt::Write>(
    out: &mut W,
    line: &ScoreLine,
    withdrawn: &[Withdrawal],
) -> fmt::Result {
    let path = Shown(line.path.as_slice());
    let number = line.number;
    let file = Shown(line.file.as_slice());
    let state = if is_withdrawn(withdrawn, number) {
        ", withdrawn"
    } else {
        ""
    };
    writeln!(out, "score {path}, number {number}, {file}{state}")
}

fn write_entries<W: fmt::Write>(out: &mut W, loaded: &Loaded) -> fmt::Result {
    let book = &loaded.book;
    for (line, piece) in book.scores.lines.iter().zip(loaded.scores.iter()) {
        write_title(out, line, book.withdrawn.as_slice())?;
        write_score(out, loaded.score(*piece))?;
    }
    Ok(())
}

/// Writes the report on a book: the main score, then each score of its catalogue.
pub fn write_report<W: fmt::Write>(out: &mut W, loaded: &Loaded) -> fmt::Result {
    let file = Shown(loaded.book.main.as_slice());
    writeln!(out, "main score, {file}")?;
    write_score(out, loaded.score(loaded.main))?;
    write_entries(out, loaded)
}
