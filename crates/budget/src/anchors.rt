//! The anchor numbers that were defined.
ghost use Rattle.std.specs.Prelude.{◌≡◌, false, replicate};
ghost use Rattle.budget.specs.Flags.{defined, is_new, trues};

use crate::observed::AnchorNumber;

/// A flag for each anchor number, and how many are set.
#[derive(Drop)]
pub struct DefinedAnchors {
    // A fixed table, read by number: nothing is allocated.
    flags: [bool; 1024],
    count: u32,
    ghost counted: { count ≡ trues flags },
}

impl DefinedAnchors {
    pub(crate) fn new() -> DefinedAnchors
        ensures { result.flags ≡ replicate 1024 false }
    {
        DefinedAnchors {
            flags: [false; 1024],
            count: 0,
        }
    }

    /// How many numbers were defined.
    pub(crate) fn len(&self) -> u32
        ensures { result ≡ trues self.now.flags }
    {
        self.count
    }

    /// Defines a number. Answers whether it was not defined before; number 0 stands for none and is never defined.
    pub(crate) fn insert(&mut self, anchor: AnchorNumber) -> bool
        ensures state { self.new.flags ≡ defined anchor.number self.old.flags }
        ensures answer { result ≡ is_new anchor.number self.old.flags }
    {
        let place = anchor.number as usize;
        if place == 0 || self.flags[place] {
            return false;
        }
        self.flags[place] = true;
        self.count += 1;
        true
    }
}
