//! The four rules of a sound piece, each as a test of the piece's own lists.
ghost use Rattle.std.specs.Prelude.{◌≡◌};
ghost use Rattle.events.specs.Scores.{lists, part_in, within};
ghost use Rattle.events.specs.Rules.{stock_fits, piece_fits, mark_fits, event_fits, may_carry, numbered_at, numbers, named_at, points_back, rule_number};
ghost use Rattle.events.specs.Walks.{Walks};
ghost use Rattle.std.specs.List.{list_all};
ghost use Rattle.std.specs.Option.{option_map};

use crate::kinds::{EventKind, Rule, ScalarStyle};
use crate::score::{Event, Mark, Piece, Run, Stock};
use std::error::Error;
use std::fmt;

/// The number of a rule, 1 to 4.
impl From<Rule> for u32 {
    ghost from_gives = { λ rule number. number ≡ rule_number rule };

    fn from(rule: Rule) -> u32 {
        match rule {
            Rule::Sizes => 1,
            Rule::Nesting => 2,
            Rule::Numbering => 3,
            Rule::Aliases => 4,
        }
    }
}

impl fmt::Display for Rule {
    fn fmt<W: fmt::Write>(&self, f: &mut fmt::Formatter<W>) -> fmt::Result {
        f.write_str(match self {
            Rule::Sizes =>
                "a size is passed, a run lies outside its list, or a kind or style is unknown",
            Rule::Nesting => "sequences and mappings do not pair and nest",
            Rule::Numbering => "anchor numbers are not 1, 2, .. in order",
            Rule::Aliases => "an alias names no anchor before it",
        })
    }
}

impl Error for Rule {}

impl Run {
    /// Whether the run lies inside a list of `size` items.
    pub fn lies_within(self, size: usize) -> bool
        ensures lies_inside_without_wrapping { result ≡ within self size }
    {
        let end = self.start as usize + self.len as usize;
        end <= size
    }

    /// The items of the run, if it lies inside the list.
    pub fn part_of<T>(self, items: &[T]) -> Option<&[T]>
        ensures is_the_part_inside { option_map (λ x. x.now) result ≡ part_in self items.now }
    {
        let start = self.start as usize;
        items.get(start..start + self.len as usize)
    }
}

impl Event {
    /// Whether kind and style are known, and value and tag lie inside a stock of `size` bytes.
    pub fn is_well_formed(self, size: usize) -> bool
        ensures kind_style_and_ranges_hold { result ≡ event_fits size self }
    {
        self.kind().is_some()
            && ScalarStyle::try_from(self.style).is_ok()
            && self.value.lies_within(size)
            && self.tag.lies_within(size)
    }
}

/// Whether the lists of a stock are at most as long as they may be.
pub(crate) fn stock_fits(stock: Stock) -> bool
    ensures { result ≡ stock_fits (lists stock.entry) }
{
    stock.bytes.len() <= 1_048_576 && stock.marks.len() <= 4_096 && stock.events.len() <= 65_536
}

/// Whether the runs and the text of a piece are at most as long as they may be.
pub(crate) fn piece_fits(piece: Piece) -> bool
    ensures { result ≡ piece_fits piece }
{
    piece.marks.len <= 256 && piece.events.len <= 8_192 && piece.text_len <= 1_048_576
}

/// Whether the name of each mark lies inside a stock of `size` bytes.
pub(crate) fn marks_fit(marks: &[Mark], size: usize) -> bool
    ensures { result ≡ list_all (mark_fits size) marks.now }
{
    marks.iter().all(|mark| mark.name.lies_within(size))
}

/// Whether each event is well formed in a stock of `size` bytes.
pub(crate) fn events_fit(events: &[Event], size: usize) -> bool
    ensures { result ≡ list_all (event_fits size) events.now }
{
    events.iter().all(|event| event.is_well_formed(size))
}

/// The highest number carried after an event, where `highest` was it before; `None` if the event breaks the numbering.
fn number_after(highest: u32, event: Event) -> Option<u32>
    ensures { result ≡ numbered_at highest event }
{
    match event.kind()? {
        EventKind::Alias => Some(highest),
        EventKind::Scalar | EventKind::SequenceStart | EventKind::MappingStart => next_number(
            highest,
            event.anchor,
        ),
        _ => (event.anchor == 0).then_some(highest),
    }
}

/// The highest number after all events, where `step` tells it after each; `None` where an event may not stand.
fn highest_after<F: Fn(u32, Event) -> Option<u32>>(events: &[Event], step: F) -> Option<u32>
    requires { F.IsAlwaysCallable step }
    ensures { Walks (F.post step) 0 events.now result }
{
    let mut highest = 0;
    for event in events {
        highest = step(highest, *event)?;
    }
    Some(highest)
}

/// Whether the numbers carried by the events are 1, 2, .. `count` in order.
pub(crate) fn numbers_run(events: &[Event], count: u32) -> bool
    ensures { result ≡ numbers count events.now }
{
    highest_after(events, |highest, event| number_after(highest, event)) == Some(count)
}

/// The highest number carried after a node with this anchor: none, or the next.
fn next_number(highest: u32, anchor: u32) -> Option<u32>
    ensures { result ≡ may_carry anchor highest }
{
    if anchor == 0 {
        return Some(highest);
    }
    (anchor - 1 == highest).then_some(anchor)
}

/// The highest number carried after an event, where `highest` was it before; `None` if the event is an alias that names no number up to there.
fn named_after(highest: u32, event: Event) -> Option<u32>
    ensures { result ≡ named_at highest event }
{
    if event.kind() == Some(EventKind::Alias) {
        (event.anchor >= 1 && event.anchor <= highest).then_some(highest)
    } else {
        Some(highest.max(event.anchor))
    }
}

/// Whether each alias names a number from 1 to the highest carried before it.
pub(crate) fn aliases_point_back(events: &[Event]) -> bool
    ensures { result ≡ points_back events.now }
{
    highest_after(events, |highest, event| named_after(highest, event)).is_some()
}
