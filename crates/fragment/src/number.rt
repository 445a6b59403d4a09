//! The numbers of nodes.
ghost use Rattle.std.specs.Prelude.{◌≡◌, ◌-◌, ◌≤◌};

/// The number of a node, from 1 to 256.
#[derive(Clone, Copy)]
pub(crate) struct NodeNumber {
    pub(crate) number: u32,
    ghost least: { 1 ≤ number },
    ghost most: { number ≤ 256 },
}

impl NodeNumber {
    /// The place of the number in a table that has one for each: number 1 has place 0.
    pub(crate) fn slot(self) -> usize
        ensures { result ≡ self.number - 1 }
    {
        (self.number - 1) as usize
    }
}
