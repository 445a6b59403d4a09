//! The counts of the report, each against its limit.
ghost use Rattle.std.specs.Prelude.{◌≡◌};
ghost use Rattle.budget.specs.Counts.{cleared, count_alias, count_anchor, count_bytes, count_document, count_event, count_merge_key, count_node, judged, up, Stepped};
ghost use Rattle.budget.specs.Counts.{deepen as deeper};

use crate::breach::{BudgetBreach, BudgetReport};
use crate::limits::{Budget, within};

/// Raises a count by an amount, and answers it. It stops at the largest number of 32 bits.
fn raise(count: &mut u32, by: usize) -> u32
    ensures state { count.new ≡ up count.old by }
    ensures answer { result ≡ up count.old by }
{
    let sum = (*count as usize).saturating_add(by);
    *count = sum.min(u32::MAX as usize) as u32;
    *count
}

impl BudgetReport {
    pub(crate) fn count_event(&mut self, budget: &Budget) -> Result<(), BudgetBreach>
        ensures { Stepped self.new result (count_event budget.now self.old) }
    {
        let events = raise(&mut self.events, 1);
        within(events, budget.max_events, BudgetBreach::Events { events })
    }

    pub(crate) fn count_node(&mut self, budget: &Budget) -> Result<(), BudgetBreach>
        ensures { Stepped self.new result (count_node budget.now self.old) }
    {
        let nodes = raise(&mut self.nodes, 1);
        within(nodes, budget.max_nodes, BudgetBreach::Nodes { nodes })
    }

    pub(crate) fn count_alias(&mut self, budget: &Budget) -> Result<(), BudgetBreach>
        ensures { Stepped self.new result (count_alias budget.now self.old) }
    {
        let aliases = raise(&mut self.aliases, 1);
        within(
            aliases,
            budget.max_aliases,
            BudgetBreach::Aliases { aliases },
        )
    }

    pub(crate) fn count_document(&mut self, budget: &Budget) -> Result<(), BudgetBreach>
        ensures { Stepped self.new result (count_document budget.now self.old) }
    {
        let documents = raise(&mut self.documents, 1);
        within(
            documents,
            budget.max_documents,
            BudgetBreach::Documents { documents },
        )
    }

    pub(crate) fn count_merge_key(&mut self, budget: &Budget) -> Result<(), BudgetBreach>
        ensures { Stepped self.new result (count_merge_key budget.now self.old) }
    {
        let merge_keys = raise(&mut self.merge_keys, 1);
        within(
            merge_keys,
            budget.max_merge_keys,
            BudgetBreach::MergeKeys { merge_keys },
        )
    }

    pub(crate) fn count_bytes(&mut self, budget: &Budget, bytes: usize) -> Result<(), BudgetBreach>
        ensures { Stepped self.new result (count_bytes bytes budget.now self.old) }
    {
        let total_scalar_bytes = raise(&mut self.total_scalar_bytes, bytes);
        within(
            total_scalar_bytes,
            budget.max_total_scalar_bytes,
            BudgetBreach::ScalarBytes { total_scalar_bytes },
        )
    }

    pub(crate) fn deepen(&mut self, budget: &Budget, depth: u32) -> Result<(), BudgetBreach>
        ensures { Stepped self.new result (deeper depth budget.now self.old) }
    {
        let depth = self.max_depth.max(depth);
        self.max_depth = depth;
        within(depth, budget.max_depth, BudgetBreach::Depth { depth })
    }

    pub(crate) fn count_anchor(&mut self, budget: &Budget, anchors: u32) -> Result<(), BudgetBreach>
        ensures { Stepped self.new result (count_anchor anchors budget.now self.old) }
    {
        self.anchors = anchors;
        within(
            anchors,
            budget.max_anchors,
            BudgetBreach::Anchors { anchors },
        )
    }

    /// A count of 0 aliases never breaches the ratio.
    pub(crate) fn judge_ratio(&mut self, budget: &Budget, anchors: u32) -> Result<(), BudgetBreach>
        ensures { Stepped self.new result (judged anchors budget.now self.old) }
    {
        self.anchors = anchors;
        let aliases = self.aliases;
        if budget.enforce_alias_anchor_ratio
            && aliases >= 1
            && aliases >= budget.alias_anchor_min_aliases
            && (anchors == 0
                || aliases as u64 > budget.alias_anchor_ratio_multiplier as u64 * anchors as u64)
        {
            return Err(BudgetBreach::AliasAnchorRatio { aliases, anchors });
        }
        Ok(())
    }

    /// Resets all but the breach and the count of documents.
    pub(crate) fn reset(&mut self)
        ensures { self.new ≡ cleared self.old }
    {
        *self = BudgetReport {
            breached: self.breached,
            documents: self.documents,
            ..BudgetReport::default()
        };
    }
}
