//! The nodes of a sound piece that carry numbers, and the marks that name them.
ghost use Rattle.std.specs.Prelude.{◌≡◌, ◌<◌, IsNone};
ghost use Rattle.events.specs.Tables.{range_at};

use crate::score::NodeRange;
use arrayvec::ArrayVec;
use std::marker::Model;

/// The ranges of the nodes with numbers, found once for a piece: number `k` has the `k`-th range.
#[derive(Drop)]
pub struct NodeTable {
    ranges: ArrayVec<NodeRange, 256>,
}

impl Model for NodeTable {
    ghost use Rattle.std.specs.Prelude.{List};
    ghost use Rattle.events.specs.declared.score.NodeRange.{NodeRange as Range};

    ghost Value = { List Range };

    ghost view = { λ t. t.ranges.items };
}

impl NodeTable {
    /// A table of the ranges.
    pub(crate) fn new(ranges: ArrayVec<NodeRange, 256>) -> NodeTable
        ensures { result ≡ ranges.items }
    {
        NodeTable { ranges }
    }

    /// The range of the node with a number, if there is one.
    pub fn range(&self, number: usize) -> Option<NodeRange>
        ensures is_the_range_of_the_number { result ≡ range_at self.now number }
        ensures no_number_is_above_256 { 256 < number → IsNone result }
    {
        self.ranges.get(number.checked_sub(1)?).copied()
    }
}
