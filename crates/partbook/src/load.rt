//! A book is read from its folder.
use crate::score::Score;
use crate::trouble::Trouble;
use book::contents::Book;
use book::lines::ScoreLine;
use book::reading::read_book;
use events::score::Piece;
use notation::builder::StockBuilder;
use std::fs;
use std::str::from_utf8;

/// A book with its scores: they share the builder's stock.
#[derive(Drop)]
pub struct Loaded {
    pub book: Book,
    pub builder: StockBuilder,
    pub main: Piece,
    pub scores: Vec<Piece>,
}

impl Loaded {
    /// A piece of the book as a score.
    pub fn score(&self, piece: Piece) -> Score<'_> {
        Score {
            stock: self.builder.stock(),
            piece,
        }
    }
}

fn read_file(rt: &HostRuntime, path: &str) -> Result<Vec<u8>, Trouble> {
    // A match, and no `map_err`: the copy of the path may fail, too.
    match fs::read(rt, path) {
        Ok(text) => Ok(text),
        Err(error) => Err(Trouble::File(String::from_str(rt.alloc(), path)?, error)),
    }
}

fn load_book(rt: &HostRuntime, folder: &str) -> Result<Book, Trouble> {
    let heap = rt.alloc();
    let path = format!(in heap; "{folder}/book.txt")?;
    let text = read_file(rt, path.as_str())?;
    read_book(heap, text.as_slice()).map_err(|error| Trouble::Book(path, error))
}

// The path of a score's file, whose name has to be text.
fn score_path(rt: &HostRuntime, folder: &str, file: &[u8]) -> Result<String, Trouble> {
    let heap = rt.alloc();
    let Ok(name) = from_utf8(file) else {
        return Err(Trouble::Name(format!(in heap; "{folder}/book.txt")?));
    };
    Ok(format!(in heap; "{folder}/{name}")?)
}

fn load_score(
    rt: &HostRuntime,
    builder: &mut StockBuilder,
    folder: &str,
    file: &[u8],
) -> Result<Piece, Trouble> {
    let path = score_path(rt, folder, file)?;
    let text = read_file(rt, path.as_str())?;
    builder
        .add_score(text.as_slice())
        .map_err(|error| Trouble::Score(path, error))
}

fn load_scores(
    rt: &HostRuntime,
    builder: &mut StockBuilder,
    folder: &str,
    lines: &[ScoreLine],
) -> Result<Vec<Piece>, Trouble> {
    let mut pieces = Vec::new(rt.alloc());
    for line in lines {
        pieces.push(load_score(rt, builder, folder, line.file.as_slice())?)?;
    }
    Ok(pieces)
}

/// Reads the book in a folder: its `book.txt`, its main score, and then its other scores in the order of their lines.
pub fn load(rt: &HostRuntime, folder: &str) -> Result<Loaded, Trouble> {
    let book = load_book(rt, folder)?;
    let mut builder = StockBuilder::new(rt.alloc());
    let main = load_score(rt, &mut builder, folder, book.main.as_slice())?;
    let scores = load_scores(rt, &mut builder, folder, book.scores.lines.as_slice())?;
    Ok(Loaded {
        book,
        builder,
        main,
        scores,
    })
}
