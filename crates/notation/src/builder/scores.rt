//! Scores are added to a stock: each line becomes an event.
ghost use Rattle.std.specs.Prelude.{◌≡◌, ℕ, ◌+◌, ◌-◌, ◌<◌, ◌≤◌, [], ◌∷◌, ◌++◌, length, IfOk, Err, vec_len, MatchResult, OnOk};
ghost use Rattle.notation.specs.Scores.{Grown, Counted, Holds, Naming, Marking, Anchored, Step, Reached, Ended, Added, Same, name_set};
ghost use Rattle.notation.specs.Causes.{refusing, ForLists, BytesExceeded, MarksFull, Unknown, AliasUnknown, MarkExceeds, LineCause, Stopped, Refusal};
ghost use Rattle.notation.specs.Limits.{Filled};
ghost use Rattle.notation.specs.View.{said};
ghost use Rattle.notation.specs.declared.fault.TextFault.TheVariants.{TextTooLong};

use crate::builder::StockBuilder;
use crate::fault::{TextError, TextFault};
use crate::forms::is_alias;
use crate::line::Line;
use crate::reading::read_line;
use events::marks::last_named;
use events::score::{Event, Mark, Piece, Run, Span, Stock};
use slices::front;
use slices::lines::Lines;
use std::alloc::Global;

const MAX_BYTES: usize = 1_048_576;

const MAX_TEXT: usize = 1_048_576;

/// How many items of a list a score may have, how many the list may have, and the fault where there would be more.
#[derive(Clone, Copy)]
struct Limits {
    score: usize,
    stock: usize,
    fault: TextFault,
}

const MARKS: Limits = Limits {
    score: 256,
    stock: 4_096,
    fault: TextFault::TooManyMarks,
};

const EVENTS: Limits = Limits {
    score: 8_192,
    stock: 65_536,
    fault: TextFault::TooManyEvents,
};

/// Where the marks and the events of a score begin in the lists of its stock.
#[derive(Clone, Copy)]
struct Begun {
    marks: usize,
    events: usize,
}

/// Appends bytes, and answers where they stand.
fn put_bytes(bytes: &mut Vec<u8>, more: &[u8]) -> Result<Run, TextFault>
    ensures placed { MatchResult result (λ run. (bytes.new.items ≡ bytes.old.items ++ more.now) × (run.start ≡ vec_len bytes.old) × (run.len ≡ length more.now)) (λ _. bytes.new.items ≡ bytes.old.items) }
    ensures within { vec_len bytes.old ≤ 1048576 → vec_len bytes.new ≤ 1048576 }
    ensures refused { refusing result (ForLists ⊥ (BytesExceeded (vec_len bytes.old) (length more.now)) ⊥ ⊥) }
{
    let start = bytes.len();
    if start > MAX_BYTES || more.len() > MAX_BYTES - start {
        return Err(TextFault::TooManyBytes);
    }
    bytes.extend_from_slice(more)?;
    Ok(Run {
        start: start as u32,
        len: more.len() as u32,
    })
}

/// Appends an item of the score whose items begin at `first`, and answers its number in that score, counted from 1.
fn put<T: Drop>(
    list: &mut Vec<T>,
    first: usize,
    item: T,
    limits: Limits,
) -> Result<usize, TextFault>
    ensures placed { MatchResult result (λ n. (list.new.items ≡ list.old.items ++ item ∷ []) × (n ≡ vec_len list.old - first + 1)) (λ _. list.new.items ≡ list.old.items) }
    ensures within { vec_len list.old ≤ limits.stock → vec_len list.new ≤ limits.stock }
    ensures counted { vec_len list.old - first ≤ limits.score → vec_len list.new - first ≤ limits.score }
    ensures few { IfOk result (λ n. n ≤ limits.score) }
    ensures refused { refusing result (Filled limits first (vec_len list.old)) }
{
    let count = list.len().saturating_sub(first);
    if list.len() >= limits.stock || count >= limits.score {
        return Err(limits.fault);
    }
    list.push(item)?;
    Ok(count + 1)
}

/// Where the line feeds at the end of a text begin.
fn text_end(text: &[u8]) -> usize
    ensures ended { Ended text.now result }
{
    text.iter()
        .rposition(|&byte| byte != b'\n')
        .map_or(0, |last| last + 1)
}

impl StockBuilder {
    /// A builder with nothing in its lists.
    pub fn new(heap: Global) -> StockBuilder
        ensures bytes { result.bytes.items ≡ [] }
        ensures marks { result.marks.items ≡ [] }
        ensures events { result.events.items ≡ [] }
    {
        StockBuilder {
            heap,
            bytes: Vec::new(heap),
            marks: Vec::new(heap),
            events: Vec::new(heap),
        }
    }

    /// The lists as a stock.
    pub fn stock(&self) -> Stock<'_>
        ensures bytes { result.bytes.now ≡ self.now.bytes.items }
        ensures marks { result.marks.now ≡ self.now.marks.items }
        ensures events { result.events.now ≡ self.now.events.items }
    {
        Stock {
            bytes: self.bytes.as_slice(),
            marks: self.marks.as_slice(),
            events: self.events.as_slice(),
        }
    }

    /// The number of the last mark of this name in the score whose marks begin at `first`.
    fn number_of(&self, first: usize, name: &[u8]) -> Result<u32, TextFault>
        ensures value { IfOk result (λ n. Naming first name.now n self.now self.now) }
        ensures refused { refusing result (ForLists (Unknown first name.now self.now) ⊥ ⊥ ⊥) }
    {
        let marks = self.marks.as_slice();
        let marks = marks.get(first..).ok_or(TextFault::UnknownAnchor)?;
        let number = last_named(self.bytes.as_slice(), marks, name).ok_or(
            TextFault::UnknownAnchor,
        )?;
        Ok(number as u32)
    }

    /// Sets a mark of this name in the score that begins there, and answers its number in that score.
    fn set_mark(&mut self, begun: Begun, name: &[u8]) -> Result<u32, TextFault>
        ensures grown { Grown self.old self.new }
        ensures counted { Counted begun.marks begun.events self.old → Counted begun.marks begun.events self.new }
        ensures events { self.new.events.items ≡ self.old.events.items }
        ensures marking { IfOk result (λ n. Marking begun.marks name.now n self.old self.new) }
        ensures bytes { OnOk result (self.new.bytes.items ≡ self.old.bytes.items ++ name.now) }
        ensures refused { refusing result (ForLists ⊥ (BytesExceeded (vec_len self.old.bytes) (length name.now)) (MarksFull begun.marks (vec_len self.old.marks)) ⊥) }
    {
        let run = put_bytes(&mut self.bytes, name)?;
        let number = put(&mut self.marks, begun.marks, Mark { name: run }, MARKS)?;
        Ok(number as u32)
    }

    /// The number of the mark that a line sets or names, or 0. A line that sets one gets the next number.
    fn anchor_of(&mut self, begun: Begun, line: &Line) -> Result<u32, TextFault>
        ensures grown { Grown self.old self.new }
        ensures counted { Counted begun.marks begun.events self.old → Counted begun.marks begun.events self.new }
        ensures events { self.new.events.items ≡ self.old.events.items }
        ensures anchored { IfOk result (λ n. Anchored begun.marks (said line.now) n self.old self.new) }
        ensures bytes { OnOk result (self.new.bytes.items ≡ self.old.bytes.items ++ name_set (said line.now)) }
        ensures refused { refusing result (ForLists (AliasUnknown begun.marks (said line.now) self.old) (BytesExceeded (vec_len self.old.bytes) (length (name_set (said line.now)))) (MarkExceeds begun.marks (said line.now) self.old) ⊥) }
    {
        let name = line.anchor.as_slice();
        if name.is_empty() {
            return Ok(0);
        }
        if is_alias(line.kind) {
            return self.number_of(begun.marks, name);
        }
        self.set_mark(begun, name)
    }

    /// Appends the value and the tag of a line, and answers where they stand.
    fn put_texts(&mut self, line: &Line) -> Result<(Run, Run), TextFault>
        ensures grown { Grown self.old self.new }
        ensures counted { (m e : ℕ) → Counted m e self.old → Counted m e self.new }
        ensures marks { self.new.marks.items ≡ self.old.marks.items }
        ensures events { self.new.events.items ≡ self.old.events.items }
        ensures value { IfOk result (λ p. Holds self.new.bytes.items p.0 line.now.value.items) }
        ensures tag { IfOk result (λ p. Holds self.new.bytes.items p.1 line.now.tag.items) }
        ensures bytes { OnOk result (self.new.bytes.items ≡ self.old.bytes.items ++ (line.now.value.items ++ line.now.tag.items)) }
        ensures refused { refusing result (ForLists ⊥ (BytesExceeded (vec_len self.old.bytes) (length (line.now.value.items ++ line.now.tag.items))) ⊥ ⊥) }
    {
        let value = put_bytes(&mut self.bytes, line.value.as_slice())?;
        let tag = put_bytes(&mut self.bytes, line.tag.as_slice())?;
        Ok((value, tag))
    }

    /// Adds the event of one line to the score that begins there.
    fn add_line(&mut self, begun: Begun, text: &[u8], span: Span) -> Result<(), TextFault>
        ensures grown { Grown self.old self.new }
        ensures counted { Counted begun.marks begun.events self.old → Counted begun.marks begun.events self.new }
        ensures step { OnOk result (Step begun.marks text.now span self.old self.new) }
        ensures refused { refusing result (LineCause begun.marks begun.events text.now self.old) }
    {
        let line = read_line(self.heap, text)?;
        let anchor = self.anchor_of(begun, &line)?;
        let (value, tag) = self.put_texts(&line)?;
        let event = Event {
            kind: u32::from(line.kind),
            anchor,
            value,
            tag,
            style: u32::from(line.style),
            span,
        };
        put(&mut self.events, begun.events, event, EVENTS)?;
        Ok(())
    }

    /// Adds the lines of the score that begins there.
    fn add_lines(&mut self, begun: Begun, text: &[u8]) -> Result<(), TextError>
        requires { length text.now ≤ 1048576 }
        ensures grown { Grown self.old self.new }
        ensures counted { Counted begun.marks begun.events self.old → Counted begun.marks begun.events self.new }
        ensures lines { OnOk result ((i : ℕ) × (length text.now ≤ i) × Reached begun.marks text.now self.old i self.new) }
        ensures refused { refusing result (Stopped begun.marks begun.events text.now self.old) }
    {
        // Counted beside the lines: a span is a place in bytes.
        let mut start = 0;
        for (index, line) in Lines::of(text).enumerate() {
            let end = start + line.len();
            let span = Span {
                start: start as u32,
                end: end as u32,
            };
            // No `map_err` behind `?`: the proof of what is refused does not close over it.
            if let Err(fault) = self.add_line(begun, line, span) {
                let line = index + 1;
                return Err(TextError { line, fault });
            }
            start = end + 1;
        }
        Ok(())
    }

    /// Adds a score, and answers its piece. Each line of the text becomes an event; line feeds at the end of the text are passed over,
    /// and any other empty line is an error. A refused score leaves the lists as they were, and the error tells its first line that is refused;
    /// a text that is too long is refused at line 1, before any line is read.
    pub fn add_score(&mut self, text: &[u8]) -> Result<Piece, TextError>
        ensures adds_the_events_of_its_lines { MatchResult result (λ p. Added self.old self.new text.now p) (λ _. Same self.old self.new) }
        ensures refused_with_its_cause { refusing result (Refusal text.now self.old) }
        ensures refuses_a_text_that_is_too_long { 1048576 < length text.now → result ≡ Err (record { line = 1; fault = TextTooLong }) }
    {
        if text.len() > MAX_TEXT {
            return Err(TextError {
                line: 1,
                fault: TextFault::TextTooLong,
            });
        }
        let bytes = self.bytes.len();
        let begun = Begun {
            marks: self.marks.len(),
            events: self.events.len(),
        };
        // No `?`: the lists are put back first.
        if let Err(error) = self.add_lines(begun, front(text, text_end(text))) {
            self.bytes.truncate(bytes);
            self.marks.truncate(begun.marks);
            self.events.truncate(begun.events);
            return Err(error);
        }
        let marks = Run {
            start: begun.marks as u32,
            len: (self.marks.len() - begun.marks) as u32,
        };
        let events = Run {
            start: begun.events as u32,
            len: (self.events.len() - begun.events) as u32,
        };
        Ok(Piece {
            marks,
            events,
            text_len: text.len() as u32,
        })
    }
}
