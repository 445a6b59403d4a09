//! Collection: a sound piece is read once against the budget, and the target is found.
ghost use Rattle.std.specs.Prelude.{◌≡◌, ◌^◌, ◌≤◌, length, None};
ghost use Rattle.events.specs.Checked.{lists_in, piece_in};
ghost use Rattle.events.specs.Scores.{kind, marks_of};
ghost use Rattle.events.specs.Tables.{last_named};
ghost use Rattle.fragment.specs.Collection.{collected, first_cause, is_document_start, is_start, nothing, second_document, too_deep, too_many_bytes, too_many_events, too_many_marks, cause_at, target_unless, unless, with_event};
ghost use Rattle.fragment.specs.CollectionLaws.{AcceptedExactlyIf, RefusedExactlyIf};
ghost use Rattle.fragment.specs.Room.{RoomFor, RoomForAll};
ghost use Rattle.fragment.specs.Unfolding.{value_bytes};

use crate::answers::FragmentError;
use budget::breach::BudgetBreach;
use budget::limits::{Budget, CheckedLimits, within};
use events::kinds::EventKind;
use events::score::{Event, Mark};
use events::sound::SoundPiece;

/// What is counted while a piece is read.
#[derive(Clone, Copy)]
pub(crate) struct Collected {
    /// Document starts.
    documents: u32,
    /// The depth after the last event.
    depth: u32,
    /// Bytes of the values of scalars.
    bytes: u32,
    events: u32,
}

/// Whether an event starts a document.
fn is_document_start(event: Event) -> bool
    ensures { result ≡ is_document_start (kind event) }
{
    event.kind() == Some(EventKind::DocumentStart)
}

/// Whether an event starts a sequence or a mapping.
fn is_start(event: Event) -> bool
    ensures { result ≡ is_start (kind event) }
{
    matches!(
        event.kind(),
        Some(EventKind::SequenceStart | EventKind::MappingStart)
    )
}

/// How many bytes the value of an event has, if it is a scalar; else 0.
pub(crate) fn value_bytes(event: Event) -> u32
    ensures { result ≡ value_bytes event }
{
    match event.kind() {
        Some(EventKind::Scalar) => event.value.len,
        _ => 0,
    }
}

impl Collected {
    /// Nothing is counted.
    fn new() -> Collected
        ensures { result ≡ nothing }
    {
        Collected {
            documents: 0,
            depth: 0,
            bytes: 0,
            events: 0,
        }
    }

    /// Counts one event more.
    fn count(&mut self, event: Event)
        requires { RoomFor event self.old }
        ensures { self.new ≡ with_event event self.old }
    {
        if is_document_start(event) {
            self.documents += 1;
        }
        if let Some(kind) = event.kind() {
            self.depth = kind.depth_after(self.depth);
        }
        self.bytes += value_bytes(event);
        self.events += 1;
    }

    /// Refuses a document start, counted already, if one came before it.
    fn judge_document(&self, event: Event, place: u32) -> Result<(), FragmentError>
        ensures { result ≡ unless (second_document place event self.now) }
    {
        if is_document_start(event) && self.documents > 1 {
            return Err(FragmentError::SecondDocument { place });
        }
        Ok(())
    }

    /// Refuses a start after which the depth is above the limit.
    fn judge_depth(&self, event: Event, budget: &Budget) -> Result<(), FragmentError>
        ensures { result ≡ unless (too_deep budget.now event self.now) }
    {
        if !is_start(event) {
            return Ok(());
        }
        let depth = self.depth;
        within(
            depth,
            budget.max_depth,
            FragmentError::CollectionBreach(BudgetBreach::Depth { depth }),
        )
    }

    /// Refuses more value bytes than the limit.
    fn judge_bytes(&self, budget: &Budget) -> Result<(), FragmentError>
        ensures { result ≡ unless (too_many_bytes budget.now self.now) }
    {
        let total_scalar_bytes = self.bytes;
        within(
            total_scalar_bytes,
            budget.max_total_scalar_bytes,
            FragmentError::CollectionBreach(BudgetBreach::ScalarBytes { total_scalar_bytes }),
        )
    }

    /// Refuses more events than the limit.
    fn judge_events(&self, budget: &Budget) -> Result<(), FragmentError>
        ensures { result ≡ unless (too_many_events budget.now self.now) }
    {
        let events = self.events;
        within(
            events,
            budget.max_events,
            FragmentError::CollectionBreach(BudgetBreach::Events { events }),
        )
    }

    /// Counts one event more, and answers the first cause to refuse the piece there.
    fn take(&mut self, event: Event, budget: &Budget) -> Result<(), FragmentError>
        requires { RoomFor event self.old }
        ensures counts_the_event { self.new ≡ with_event event self.old }
        ensures tells_the_first_cause { result ≡ unless (cause_at budget.now self.old.events event (with_event event self.old)) }
    {
        let place = self.events;
        self.count(event);
        self.judge_document(event, place)?;
        self.judge_depth(event, budget)?;
        self.judge_bytes(budget)?;
        self.judge_events(budget)
    }
}

/// Refuses more marks than the limit: the first past it is told.
fn collect_marks(marks: &[Mark], budget: &Budget) -> Result<(), FragmentError>
    requires { budget.now.max_anchors ≤ 2 ^ 30 }
    ensures { result ≡ unless (too_many_marks budget.now (length marks.now)) }
{
    if marks.len() > budget.max_anchors as usize {
        let anchors = budget.max_anchors + 1;
        return Err(FragmentError::CollectionBreach(BudgetBreach::Anchors { anchors }));
    }
    Ok(())
}

/// Counts the events in order, and answers the first cause to refuse the piece.
fn collect_events(events: &[Event], budget: &Budget) -> Result<(), FragmentError>
    requires { RoomForAll budget.now events.now }
    ensures { result ≡ unless (first_cause budget.now nothing events.now) }
{
    let mut counted = Collected::new();
    for event in events {
        counted.take(*event, budget)?;
    }
    Ok(())
}

/// The number of the last mark with the name.
fn find_target(sound: SoundPiece, name: &[u8]) -> Result<u32, FragmentError>
    ensures { result ≡ target_unless None (last_named (lists_in sound.entry).bytes name.now (marks_of (lists_in sound.entry) (piece_in sound.entry))) }
{
    let number = sound
        .last_mark_named(name)
        .ok_or(FragmentError::UnmarkedTarget)?;
    Ok(number as u32)
}

/// Reads a sound piece against the limits, and answers the number of the last mark with the name.
pub(crate) fn collect(
    sound: SoundPiece,
    name: &[u8],
    limits: CheckedLimits,
) -> Result<u32, FragmentError>
    ensures tells_the_first_cause_or_the_target { result ≡ collected limits.limits.budget (lists_in sound.entry) (piece_in sound.entry) name.now }
    ensures goes_through_exactly_within_the_budget_with_a_target { AcceptedExactlyIf limits.limits.budget (lists_in sound.entry) (piece_in sound.entry) name.now result }
    ensures refused_exactly_by_the_first_cause { RefusedExactlyIf limits.limits.budget (lists_in sound.entry) (piece_in sound.entry) name.now result }
{
    let budget = limits.budget();
    collect_marks(sound.marks(), &budget)?;
    collect_events(sound.events(), &budget)?;
    find_target(sound, name)
}
