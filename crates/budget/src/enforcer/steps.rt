//! What the enforcer does with an event that is counted, by its kind.
ghost use Rattle.budget.specs.Counts.{Stepped};
ghost use Rattle.budget.specs.Model.{anchored, by_kind, placed};
ghost use Rattle.budget.specs.Model.{alias as alias_step};
ghost use Rattle.budget.specs.Model.{document as document_step};
ghost use Rattle.budget.specs.Model.{enter as enter_step};
ghost use Rattle.budget.specs.Model.{leave as leave_step};
ghost use Rattle.budget.specs.Model.{scalar as scalar_step};
ghost use Rattle.budget.specs.Seeing.{seen};

use crate::anchors::DefinedAnchors;
use crate::breach::BudgetBreach;
use crate::enforcer::BudgetEnforcer;
use crate::observed::{AnchorNumber, ObservedEvent};
use crate::policy::EnforcingPolicy;
use events::kinds::EventKind;

impl BudgetEnforcer {
    pub(crate) fn step(&mut self, event: ObservedEvent) -> Result<(), BudgetBreach>
        ensures { Stepped self.new result (by_kind event.entry.kind (seen event.entry) self.old) }
    {
        match event.kind {
            EventKind::Scalar => self.scalar(event),
            EventKind::MappingStart | EventKind::SequenceStart => self.enter(event),
            EventKind::MappingEnd => self.leave(EventKind::MappingEnd),
            EventKind::SequenceEnd => self.leave(EventKind::SequenceEnd),
            EventKind::Alias => self.alias(),
            EventKind::DocumentStart => self.document(),
            EventKind::DocumentEnd | EventKind::StreamStart | EventKind::StreamEnd => Ok(()),
        }
    }

    fn record_anchor(&mut self, anchor: AnchorNumber) -> Result<(), BudgetBreach>
        ensures { Stepped self.new result (anchored anchor.number self.old) }
    {
        let fresh = self.anchors.insert(anchor);
        let count = self.anchors.len();
        if fresh {
            return self.report.count_anchor(&self.limits.limits.budget, count);
        }
        self.report.anchors = count;
        Ok(())
    }

    fn place_scalar(&mut self, merge: bool) -> Result<(), BudgetBreach>
        ensures { Stepped self.new result (placed merge self.old) }
    {
        if merge && self.containers.key_next() {
            self.report.count_merge_key(&self.limits.limits.budget)?;
        }
        self.containers.turn_top(EventKind::Scalar);
        Ok(())
    }

    fn scalar(&mut self, event: ObservedEvent) -> Result<(), BudgetBreach>
        ensures { Stepped self.new result (scalar_step (seen event.entry) self.old) }
    {
        let merge = self.merge_keys.counts(event);
        self.report.count_node(&self.limits.limits.budget)?;
        self.report.count_bytes(
            &self.limits.limits.budget,
            event.value.len() + event.tag.len(),
        )?;
        self.record_anchor(event.anchor)?;
        self.place_scalar(merge)
    }

    fn enter(&mut self, event: ObservedEvent) -> Result<(), BudgetBreach>
        ensures { Stepped self.new result (enter_step (seen event.entry) self.old) }
    {
        self.report.count_node(&self.limits.limits.budget)?;
        let depth = self.containers.depth() + 1;
        self.report.deepen(&self.limits.limits.budget, depth)?;
        self.report
            .count_bytes(&self.limits.limits.budget, event.tag.len())?;
        self.containers.enter(event.kind);
        self.record_anchor(event.anchor)
    }

    fn leave(&mut self, kind: EventKind) -> Result<(), BudgetBreach>
        ensures { Stepped self.new result (leave_step kind self.old) }
    {
        let was_value = self
            .containers
            .pop()
            .and_then(|top| top.closed_by(kind))
            .ok_or(BudgetBreach::SequenceUnbalanced)?;
        if was_value {
            self.containers.turn_top(kind);
        }
        Ok(())
    }

    fn alias(&mut self) -> Result<(), BudgetBreach>
        ensures { Stepped self.new result (alias_step self.old) }
    {
        self.report.count_alias(&self.limits.limits.budget)?;
        self.containers.turn_top(EventKind::Alias);
        Ok(())
    }

    fn document(&mut self) -> Result<(), BudgetBreach>
        ensures { Stepped self.new result (document_step self.old) }
    {
        match self.policy {
            EnforcingPolicy::AllContent => self.report.count_document(&self.limits.limits.budget),
            EnforcingPolicy::PerDocument => {
                self.report
                    .judge_ratio(&self.limits.limits.budget, self.anchors.len())?;
                self.report.reset();
                self.anchors = DefinedAnchors::new();
                Ok(())
            }
        }
    }
}
