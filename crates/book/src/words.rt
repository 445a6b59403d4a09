//! The words of a line: spaces, tabs and carriage returns stand between them.
ghost use Rattle.std.specs.Prelude.{◌≡◌};
ghost use Rattle.std.specs.Option.{option_map};
ghost use Rattle.std.specs.Iterator.{YieldsFirstRef, item_count};
ghost use Rattle.book.specs.Words.{is_gap, only_word, words_of};
ghost use Rattle.book.specs.WordsLeft.{words_left};

use slices::{Cut, behind, cut_at};

fn is_gap(byte: u8) -> bool
    ensures value { result ≡ is_gap byte }
{
    byte == b' ' || byte == b'\t' || byte == b'\r'
}

/// The words of a line that are left.
#[derive(Clone, Debug, Drop)]
pub(crate) struct Words<'a> {
    rest: &'a [u8],
}

impl<'a> Words<'a> {
    /// The words of a line.
    pub(crate) fn of(line: &'a [u8]) -> Words<'a>
        ensures all { words_left result ≡ words_of line.now }
    {
        Words { rest: line }
    }

    /// The word, where just one is left.
    pub(crate) fn only(mut self) -> Option<&'a [u8]>
        ensures value { option_map (λ x. x.now) result ≡ only_word (words_left self.entry) }
    {
        let word = self.next()?;
        if self.next().is_some() {
            return None;
        }
        Some(word)
    }
}

impl<'a> Iterator for Words<'a> {
    type Item = &'a [u8];

    ghost next_gives = { YieldsFirstRef words_left };

    ghost remaining = { item_count words_left };

    fn next(&mut self) -> Option<&'a [u8]> {
        let start = self.rest.iter().position(|&byte| !is_gap(byte))?;
        let words = behind(self.rest, start);
        let end = words.iter().position(|&byte| is_gap(byte));
        let Cut { piece, rest } = cut_at(words, end.unwrap_or(words.len()));
        self.rest = rest;
        Some(piece)
    }
}
