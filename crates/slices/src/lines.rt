//! The lines of a text: a line feed ends a line, and the last may lack it.
ghost use Rattle.std.specs.Prelude.{◌≡◌, ◌<◌, ◌^◌, length};
ghost use Rattle.std.specs.Iterator.{YieldsFirstRef, item_count};
ghost use Rattle.slices.specs.Lines.{lines_of};
ghost use Rattle.slices.specs.LinesLeft.{lines_left};

use crate::{Cut, behind, cut_at, place_of};

/// The lines of a text that are left, each without its line feed.
#[derive(Clone, Debug, Drop)]
pub struct Lines<'a> {
    rest: &'a [u8],
}

impl<'a> Lines<'a> {
    /// The lines of a text.
    pub fn of(text: &'a [u8]) -> Lines<'a>
        ensures all { lines_left result ≡ lines_of text.now }
        ensures bound { length (lines_left result) < 2 ^ 64 }
    {
        Lines { rest: text }
    }
}

impl<'a> Iterator for Lines<'a> {
    type Item = &'a [u8];

    ghost next_gives = { YieldsFirstRef lines_left };

    ghost remaining = { item_count lines_left };

    fn next(&mut self) -> Option<&'a [u8]> {
        if self.rest.is_empty() {
            return None;
        }
        let Cut { piece, rest } = cut_at(self.rest, place_of(self.rest, b'\n'));
        self.rest = behind(rest, 1);
        Some(piece)
    }
}
