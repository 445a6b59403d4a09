//! The catalogue: which scores can be included, and which of them are withdrawn.
#![tactic(auto)]

ghost use Rattle.std.specs.Prelude.{◌≡◌, List};
ghost use Rattle.catalogue.specs.Entries.{Entry, Lawful, look_up, standing, withdrawn};
ghost use Rattle.catalogue.specs.Laws.{LookUpTellsTheList, WithdrawingTouchesOnlyItsNumber};

pub mod answers;

use answers::{Found, Unresolved};

/// What can be asked for scores by their paths. Whatever keeps them, it means a list of entries: at most 256, with distinct paths and numbers that are not 0.
pub trait Catalogue {
    ghost entries: { Self → List Entry };

    /// The score of a path, if it stands. Changes nothing.
    fn resolve(&self, path: &[u8]) -> Result<Found, Unresolved>
        ensures resolve_tells_the_list { result ≡ look_up (entries self.now) path.now }
        ensures found_if_it_stands { LookUpTellsTheList };

    /// Withdraws all entries of a number, and answers how many of them stood.
    fn withdraw(&mut self, number: u32) -> u32
        ensures withdraw_counts_what_stood { result ≡ standing number (entries self.old) }
        ensures withdraws_the_entries { entries self.new ≡ withdrawn number (entries self.old) }
        ensures touches_only_its_number { WithdrawingTouchesOnlyItsNumber };

    ghost lawful: { (c : Self) → Lawful (entries c) };
}
