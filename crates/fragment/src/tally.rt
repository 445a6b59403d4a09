//! What an unfolding counts, and the tests of the counts against the limits.
ghost use Rattle.std.specs.Prelude.{◌≡◌, ℕ, ◌≤◌, List};
ghost use Rattle.budget.specs.Model.{Model};
ghost use Rattle.fragment.specs.Ended.{ended, went};
ghost use Rattle.fragment.specs.Unfolding.{begun, charge_alias, count_event, expand, judge_aliases, passage_of, replay};
ghost use Rattle.fragment.specs.Unfolding.{weigh as weighed};
ghost use Rattle.fragment.specs.View.{counts, counting};

use crate::answers::{Charges, FragmentError, Passage};
use crate::collection::value_bytes;
use crate::number::NodeNumber;
use budget::breach::BudgetBreach;
use budget::limits::{AliasLimits, Budget, within};
use events::score::Event;

/// The counts of one unfolding: the charges go on from those before; the others are of this passage alone.
#[derive(Drop)]
pub(crate) struct Tally {
    pub(crate) charges: Charges,
    /// Aliases replaced.
    pub(crate) replaced: u32,
    /// Events replayed.
    pub(crate) replayed: u32,
    /// Bytes of the values of scalars.
    pub(crate) bytes: u32,
    /// Events written.
    pub(crate) written: u32,
    /// For each number, how often its range was opened by an alias: a fixed table, since nothing is allocated.
    pub(crate) expansions: [u32; 256],
}

impl Tally {
    /// The counts at the start of a passage.
    pub(crate) fn begin(charges: Charges) -> Tally
        ensures { counts result ≡ begun charges }
    {
        Tally {
            charges,
            replaced: 0,
            replayed: 0,
            bytes: 0,
            written: 0,
            expansions: [0; 256],
        }
    }

    /// The passage that was counted.
    pub(crate) fn passage(&self) -> Passage
        ensures { result ≡ passage_of (counts self.now) }
    {
        Passage {
            events: self.written,
            aliases: self.replaced,
            replayed: self.replayed,
        }
    }

    /// An alias is charged and replaced.
    pub(crate) fn charge_alias(&mut self)
        ensures { (t : List ℕ) (m : Model) → went (counting t self.new m) ≡ charge_alias (counting t self.old m) }
    {
        self.charges.aliases = self.charges.aliases.saturating_add(1);
        self.replaced = self.replaced.saturating_add(1);
    }

    /// The alias charge against its limit.
    pub(crate) fn judge_aliases(&self, budget: &Budget) -> Result<(), FragmentError>
        ensures { (t : List ℕ) (m : Model) → ended result (counting t self.now m) ≡ judge_aliases budget.now (counting t self.now m) }
    {
        let aliases = self.charges.aliases;
        within(
            aliases,
            budget.max_aliases,
            FragmentError::UnfoldingBreach(BudgetBreach::Aliases { aliases }),
        )
    }

    /// One more expansion of a number, against its limit.
    pub(crate) fn count_expansion(
        &mut self,
        limits: &AliasLimits,
        number: NodeNumber,
    ) -> Result<(), FragmentError>
        ensures { (t : List ℕ) (m : Model) → ended result (counting t self.new m) ≡ expand limits.now number.number (counting t self.old m) }
    {
        let slot = number.slot();
        let count = self.expansions[slot].saturating_add(1);
        self.expansions[slot] = count;
        within(
            count,
            limits.max_alias_expansions_per_anchor,
            FragmentError::Expansions { count },
        )
    }

    /// An event in an alias range is replayed and charged, against its limit.
    pub(crate) fn charge_replayed(
        &mut self,
        limits: &AliasLimits,
        depth: u32,
    ) -> Result<(), FragmentError>
        ensures { (t : List ℕ) (m : Model) → ended result (counting t self.new m) ≡ replay limits.now depth (counting t self.old m) }
    {
        if depth > 1 {
            let count = self.charges.replayed.saturating_add(1);
            self.charges.replayed = count;
            self.replayed = self.replayed.saturating_add(1);
            return within(
                count,
                limits.max_total_replayed_events,
                FragmentError::ReplayedTotal { count },
            );
        }
        Ok(())
    }

    /// The bytes of an event's value, against their limit.
    pub(crate) fn weigh(&mut self, budget: &Budget, event: Event) -> Result<(), FragmentError>
        ensures { (t : List ℕ) (m : Model) → ended result (counting t self.new m) ≡ weighed budget.now event (counting t self.old m) }
    {
        let total_scalar_bytes = self.bytes.saturating_add(value_bytes(event));
        self.bytes = total_scalar_bytes;
        within(
            total_scalar_bytes,
            budget.max_total_scalar_bytes,
            FragmentError::UnfoldingBreach(BudgetBreach::ScalarBytes { total_scalar_bytes }),
        )
    }

    /// One more event of the passage, against its limit.
    pub(crate) fn count_event(&mut self, budget: &Budget) -> Result<(), FragmentError>
        ensures { (t : List ℕ) (m : Model) → ended result (counting t self.new m) ≡ count_event budget.now (counting t self.old m) }
    {
        let events = self.written.saturating_add(1);
        self.written = events;
        within(
            events,
            budget.max_events,
            FragmentError::UnfoldingBreach(BudgetBreach::Events { events }),
        )
    }
}
