//! What an unfolding reads.
ghost use Rattle.std.specs.Prelude.{◌≡◌, ℕ, ◌≤◌};
ghost use Rattle.events.specs.Checked.{piece_in};
ghost use Rattle.fragment.specs.Readable.{Readable};
ghost use Rattle.fragment.specs.Unfolding.{range as range_numbered};
ghost use Rattle.fragment.specs.View.{score_of};

use budget::limits::{CheckedLimits, Limits};
use events::score::{Event, NodeRange};
use events::sound::{NodeTable, SoundPiece};

/// The events of a piece with the ranges of its nodes, the place of its first event in the stock, and the limits.
#[derive(Drop)]
pub(crate) struct Source<'a> {
    pub(crate) events: &'a [Event],
    pub(crate) nodes: NodeTable,
    pub(crate) base: u32,
    pub(crate) limits: Limits,
    ghost readable: { Readable events.now nodes base },
}

impl<'a> Source<'a> {
    ghost use Rattle.fragment.specs.Sources.{score_in, HasRange};

    /// A sound piece under limits. The ranges of its nodes are found once.
    pub(crate) fn new(sound: SoundPiece<'a>, limits: &CheckedLimits) -> Source<'a>
        ensures is_the_score_of_the_piece { score_in result ≡ score_of sound.entry limits.now }
        ensures each_number_has_a_range { (n : ℕ) → 1 ≤ n → n ≤ (piece_in sound.entry).marks.len → HasRange result n }
    {
        Source {
            events: sound.events(),
            nodes: sound.nodes(),
            base: sound.piece().events.start,
            limits: Limits {
                budget: limits.budget(),
                alias_limits: limits.alias_limits(),
            },
        }
    }

    /// The range of the node with a number.
    pub(crate) fn range(&self, number: u32) -> NodeRange
        requires { HasRange self.now number }
        ensures { result ≡ range_numbered (score_in self.now) number }
    {
        self.nodes.range(number as usize).unwrap()
    }
}
