//! What one line says.
ghost use Rattle.std.specs.Prelude.{◌≡◌};
ghost use Rattle.std.specs.Option.{option_map};
ghost use Rattle.book.specs.Decimal.{number_of};
ghost use Rattle.book.specs.Entries.{nonzero, main_of, score_of, withdrawn_of, entry_by, entry_of};
ghost use Rattle.book.specs.EntryView.{said_entry};
ghost use Rattle.book.specs.View.{Answers};
ghost use Rattle.book.specs.Words.{words_of};
ghost use Rattle.book.specs.WordsLeft.{words_left};

use crate::faults::BookFault;
use crate::lines::ScoreLine;
use crate::numbers::number_of;
use crate::words::Words;
use std::alloc::Global;

const LONGEST_PATH: usize = 64;

/// An entry of a book.
#[derive(Drop)]
pub(crate) enum Entry {
    Main(Vec<u8>),
    Score(ScoreLine),
    Withdrawn(u32),
}

// The number of a score: not 0.
fn score_number(word: &[u8]) -> Result<u32, BookFault>
    ensures not_zero { result ≡ nonzero (number_of word.now) }
{
    number_of(word)
        .filter(|&number| number != 0)
        .ok_or(BookFault::BadNumber)
}

// `main FILE`, from behind its first word.
fn main_entry(heap: Global, words: Words<'_>) -> Result<Entry, BookFault>
    ensures value { Answers said_entry (main_of (words_left words.entry)) result }
{
    let file = words.only().ok_or(BookFault::WordCount)?;
    let file = Vec::from_slice(heap, file)?;
    Ok(Entry::Main(file))
}

// `score NUMBER PATH FILE`, from behind its first word.
fn score_entry(heap: Global, mut words: Words<'_>) -> Result<Entry, BookFault>
    ensures value { Answers said_entry (score_of (words_left words.entry)) result }
{
    let number = words.next().ok_or(BookFault::WordCount)?;
    let path = words.next().ok_or(BookFault::WordCount)?;
    let file = words.only().ok_or(BookFault::WordCount)?;
    let number = score_number(number)?;
    if path.is_empty() || path.len() > LONGEST_PATH {
        return Err(BookFault::PathLength);
    }
    let path = Vec::from_slice(heap, path)?;
    let file = Vec::from_slice(heap, file)?;
    Ok(Entry::Score(ScoreLine { number, path, file }))
}

// `withdrawn NUMBER`, from behind its first word.
fn withdrawn_entry(words: Words<'_>) -> Result<Entry, BookFault>
    ensures value { Answers said_entry (withdrawn_of (words_left words.entry)) result }
{
    let number = words.only().ok_or(BookFault::WordCount)?;
    let number = score_number(number)?;
    Ok(Entry::Withdrawn(number))
}

// An entry by its first word and those behind it.
fn entry_by(heap: Global, word: &[u8], words: Words<'_>) -> Result<Entry, BookFault>
    ensures value { Answers said_entry (entry_by word.now (words_left words.entry)) result }
{
    match word {
        b"main" => main_entry(heap, words),
        b"score" => score_entry(heap, words),
        b"withdrawn" => withdrawn_entry(words),
        _ => Err(BookFault::UnknownEntry),
    }
}

/// The entry of a line, if it is neither empty nor a comment.
pub(crate) fn read_entry(heap: Global, line: &[u8]) -> Result<Option<Entry>, BookFault>
    ensures value { Answers (option_map said_entry) (entry_of (words_of line.now)) result }
{
    let mut words = Words::of(line);
    let Some(word) = words.next() else {
        return Ok(None);
    };
    if word.first() == Some(&b'#') {
        return Ok(None);
    }
    let entry = entry_by(heap, word, words)?;
    Ok(Some(entry))
}
