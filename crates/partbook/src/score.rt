//! A score of a book: its piece, and the stock that holds it.
use crate::trouble::Trouble;
use events::kinds::ScalarStyle;
use events::score::{Event, Piece, Run, Stock};
use notation::line::Line;
use notation::printing::print_line;
use std::alloc::Global;

/// A piece and its stock.
#[derive(Clone, Copy)]
pub struct Score<'a> {
    pub stock: Stock<'a>,
    pub piece: Piece,
}

impl Score<'_> {
    // The bytes of a run that lies inside the stock.
    fn bytes_of(self, heap: Global, run: Run) -> Result<Vec<u8>, Trouble> {
        let bytes = run
            .part_of(self.stock.bytes)
            .ok_or_else(|| Trouble::Unprintable)?;
        Ok(Vec::from_slice(heap, bytes)?)
    }

    // The name of the anchor that an event carries: its number counts the marks of its piece from 1.
    fn anchor_of(self, heap: Global, event: Event) -> Result<Vec<u8>, Trouble> {
        let Some(before) = event.anchor.checked_sub(1) else {
            return Ok(Vec::new(heap));
        };
        let marks = self
            .piece
            .marks
            .part_of(self.stock.marks)
            .ok_or_else(|| Trouble::Unprintable)?;
        let mark = marks
            .get(before as usize)
            .ok_or_else(|| Trouble::Unprintable)?;
        self.bytes_of(heap, mark.name)
    }

    // The line of event notation of an event, if its kind and style are known.
    fn line_of(self, heap: Global, event: Event) -> Result<Line, Trouble> {
        let kind = event.kind().ok_or_else(|| Trouble::Unprintable)?;
        let style = ScalarStyle::try_from(event.style).map_err(|_| Trouble::Unprintable)?;
        Ok(Line {
            kind,
            anchor: self.anchor_of(heap, event)?,
            tag: self.bytes_of(heap, event.tag)?,
            style,
            value: self.bytes_of(heap, event.value)?,
        })
    }

    fn push_event(self, heap: Global, out: &mut Vec<u8>, event: Event) -> Result<(), Trouble> {
        let line = self.line_of(heap, event)?;
        let printed = print_line(heap, &line)?;
        out.extend_from_slice(printed.as_slice())?;
        out.push(b'\n')?;
        Ok(())
    }

    /// The events at some places of the stock, in event notation.
    pub fn print(self, heap: Global, places: &[u32]) -> Result<Vec<u8>, Trouble> {
        let mut out = Vec::new(heap);
        for place in places {
            let event = self
                .stock
                .events
                .get(*place as usize)
                .ok_or_else(|| Trouble::Unprintable)?;
            self.push_event(heap, &mut out, *event)?;
        }
        Ok(out)
    }
}
