//! The enforcer: what it keeps, and its calls.
ghost use Rattle.std.specs.Prelude.{◌≡◌};
ghost use Rattle.budget.specs.Counts.{Stepped};
ghost use Rattle.budget.specs.Laws.{ABreachIsAnsweredForEver, ABreachTellsAPassedLimit, CountsDistinctAnchors, CountsExactly, CountsWhatIsObserved, EndsWithTheReport, KeyAndValueAlternate, StaysWithin, Within};
ghost use Rattle.budget.specs.Model.{counted, kept, started};
ghost use Rattle.budget.specs.Model.{observed as observed_as};
ghost use Rattle.budget.specs.Observed.{event as event_input, reference};
ghost use Rattle.budget.specs.Seeing.{seen};

mod reporting;
mod steps;

use crate::anchors::DefinedAnchors;
use crate::breach::{BudgetBreach, BudgetReport};
use crate::containers::OpenContainers;
use crate::limits::CheckedLimits;
use crate::observed::ObservedEvent;
use crate::policy::{EnforcingPolicy, MergeKeyPolicy};
use std::marker::Model;

/// Counts what is observed against checked limits, and answers the first breach from then on.
#[derive(Drop)]
pub struct BudgetEnforcer {
    limits: CheckedLimits,
    policy: EnforcingPolicy,
    merge_keys: MergeKeyPolicy,
    report: BudgetReport,
    containers: OpenContainers,
    anchors: DefinedAnchors,
}

impl Model for BudgetEnforcer {
    ghost use Rattle.std.specs.Prelude.{◌≤◌, length};
    ghost use Rattle.budget.specs.Model.{Model};

    ghost Value = { Model };

    ghost view = { λ e. record { budget = e.limits.limits.budget; policy = e.policy; merging = e.merge_keys; report = e.report; around = e.containers; anchors = e.anchors.flags } };

    ghost invariant = { λ e. length e.containers ≤ 256 };
}

impl BudgetEnforcer {
    /// An enforcer that has observed nothing.
    pub fn new(
        limits: CheckedLimits,
        policy: EnforcingPolicy,
        merge_keys: MergeKeyPolicy,
    ) -> BudgetEnforcer
        ensures starts_with_nothing_observed { result ≡ started limits.limits.budget policy merge_keys }
        ensures starts_within_the_limits { Within result }
        ensures each_count_is_what_was_observed_since_the_reset { CountsWhatIsObserved result }
        ensures the_anchors_counted_are_distinct_numbers { CountsDistinctAnchors result }
        ensures without_a_breach_the_last_report_is_the_report { EndsWithTheReport result }
        ensures a_breach_tells_the_counts_and_a_passed_limit { ABreachTellsAPassedLimit result }
    {
        BudgetEnforcer {
            limits,
            policy,
            merge_keys,
            report: BudgetReport::default(),
            containers: OpenContainers::new(),
            anchors: DefinedAnchors::new(),
        }
    }

    /// Counts an event, or answers the breach that was met before.
    pub fn observe(&mut self, event: ObservedEvent) -> Result<(), BudgetBreach>
        ensures answers_as_defined { result ≡ (observed_as (event_input (seen event.entry)) self.old).1 }
        ensures leaves_as_defined { self.new ≡ (observed_as (event_input (seen event.entry)) self.old).0 }
        ensures a_breach_is_answered_for_ever { ABreachIsAnsweredForEver result self.new }
        ensures a_good_answer_counts_exactly { CountsExactly (event_input (seen event.entry)) result self.old self.new }
        ensures a_good_answer_stays_within_the_limits { StaysWithin result self.old self.new }
        ensures key_and_value_alternate { KeyAndValueAlternate self.old }
    {
        // Here and in the next call: a helper behind `?` would need a definition of its own.
        if let Some(breach) = self.report.breached {
            return Err(breach);
        }
        let result = self.count(event);
        self.remember(result);
        result
    }

    /// Counts an alias for which the events of its node are read in its place, or answers the breach that was met before.
    pub fn observe_alias_reference(&mut self) -> Result<(), BudgetBreach>
        ensures answers_as_defined { result ≡ (observed_as reference self.old).1 }
        ensures leaves_as_defined { self.new ≡ (observed_as reference self.old).0 }
        ensures a_breach_is_answered_for_ever { ABreachIsAnsweredForEver result self.new }
        ensures a_good_answer_counts_exactly { CountsExactly reference result self.old self.new }
        ensures a_good_answer_stays_within_the_limits { StaysWithin result self.old self.new }
    {
        if let Some(breach) = self.report.breached {
            return Err(breach);
        }
        let result = self.count_reference();
        self.remember(result);
        result
    }

    fn count(&mut self, event: ObservedEvent) -> Result<(), BudgetBreach>
        ensures { Stepped self.new result (counted (event_input (seen event.entry)) self.old) }
    {
        self.report.count_event(&self.limits.limits.budget)?;
        self.step(event)
    }

    fn count_reference(&mut self) -> Result<(), BudgetBreach>
        ensures { Stepped self.new result (counted reference self.old) }
    {
        self.report.count_event(&self.limits.limits.budget)?;
        self.report.count_alias(&self.limits.limits.budget)
    }

    /// A breach is remembered.
    fn remember(&mut self, answer: Result<(), BudgetBreach>)
        ensures { self.new ≡ kept answer self.old }
    {
        if let Err(breach) = answer {
            self.report.breached = Some(breach);
        }
    }
}
