//! What is read off a sound piece: its lists, its nodes and its marks.
ghost use Rattle.std.specs.Prelude.{◌≡◌, ◌-◌, ◌^◌, ◌<◌, ◌≤◌, length};
ghost use Rattle.events.specs.Checked.{lists_in, piece_in};
ghost use Rattle.events.specs.Nodes.{carries, deeper, end_of, ranges_from, AliasesNameNodesBeforeThem, AllNestOrAreDisjoint, OneNodeEach};
ghost use Rattle.events.specs.Scores.{events_of, kind, marks_of};
ghost use Rattle.events.specs.Tables.{FindsLast, last_named};

use crate::kinds::EventKind;
use crate::marks::last_named;
use crate::score::{Event, Mark, NodeRange, Piece};
use crate::sound::{NodeTable, SoundPiece};
use arrayvec::ArrayVec;

impl<'a> SoundPiece<'a> {
    /// The piece that was found sound.
    pub fn piece(self) -> Piece
        ensures is_the_piece_found_sound { result ≡ piece_in self.entry }
    {
        self.piece
    }

    /// The events of the piece.
    pub fn events(self) -> &'a [Event]
        ensures are_the_events_of_the_piece { result.now ≡ events_of (lists_in self.entry) (piece_in self.entry) }
    {
        let run = self.piece.events;
        run.part_of(self.stock.events).unwrap()
    }

    /// The marks of the piece: the mark at place `k - 1` names the node with number `k`.
    pub fn marks(self) -> &'a [Mark]
        ensures are_the_marks_of_the_piece { result.now ≡ marks_of (lists_in self.entry) (piece_in self.entry) }
    {
        let run = self.piece.marks;
        run.part_of(self.stock.marks).unwrap()
    }

    /// The ranges of the nodes with numbers.
    pub fn nodes(self) -> NodeTable
        ensures are_the_ranges_of_the_nodes { result ≡ ranges_from 0 (events_of (lists_in self.entry) (piece_in self.entry)) }
        ensures one_balanced_node_per_number { OneNodeEach (events_of (lists_in self.entry) (piece_in self.entry)) (piece_in self.entry).marks.len }
        ensures as_many_ranges_as_marks { length result ≡ (piece_in self.entry).marks.len }
        ensures ranges_nest_or_are_disjoint { AllNestOrAreDisjoint (events_of (lists_in self.entry) (piece_in self.entry)) (piece_in self.entry).marks.len }
        ensures aliases_name_nodes_before_them { AliasesNameNodesBeforeThem (events_of (lists_in self.entry) (piece_in self.entry)) (piece_in self.entry).marks.len }
    {
        let events = self.events();
        let mut ranges = ArrayVec::new();
        for (place, event) in events.iter().enumerate() {
            if carries_number(*event) {
                let last = node_end(events, place);
                ranges.push(NodeRange {
                    first: place as u32,
                    last: last as u32,
                });
            }
        }
        NodeTable::new(ranges)
    }

    /// The number of the last mark with a name, if any mark has it.
    pub fn last_mark_named(self, name: &[u8]) -> Option<usize>
        ensures is_the_number_of_the_last_mark { result ≡ last_named (lists_in self.entry).bytes name.now (marks_of (lists_in self.entry) (piece_in self.entry)) }
        ensures finds_the_last { FindsLast (lists_in self.entry).bytes name.now (marks_of (lists_in self.entry) (piece_in self.entry)) result }
    {
        last_named(self.stock.bytes, self.marks(), name)
    }
}

/// The depth after an event; one of an unknown kind leaves it.
fn depth_after(event: Event, depth: u32) -> u32
    requires { depth < 2 ^ 32 - 1 }
    ensures { result ≡ deeper (kind event) depth }
{
    event.kind().map_or(depth, |kind| kind.depth_after(depth))
}

/// The last place of the node that starts at `start`: its own, or that of the matching end.
fn node_end(events: &[Event], start: usize) -> usize
    requires { (start ≤ length events.now) × (length events.now ≤ 8192) }
    ensures { result ≡ end_of events.now start }
{
    let mut depth = 0;
    for (offset, event) in events[start..].iter().enumerate() {
        depth = depth_after(*event, depth);
        if depth == 0 {
            return start + offset;
        }
    }
    events.len()
}

/// Whether a node with a number starts at an event.
fn carries_number(event: Event) -> bool
    ensures { result ≡ carries event }
{
    event.anchor != 0
        && matches!(
            event.kind(),
            Some(EventKind::Scalar | EventKind::SequenceStart | EventKind::MappingStart)
        )
}
