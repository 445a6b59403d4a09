//! What the enforcer tells of its counts.
ghost use Rattle.std.specs.Prelude.{◌≡◌, ◌≤◌, length};
ghost use Rattle.budget.specs.Laws.{IsUnderCheckedLimits, KeyAndValueAlternate};
ghost use Rattle.budget.specs.Model.{reported};

use crate::breach::BudgetReport;
use crate::enforcer::BudgetEnforcer;

impl BudgetEnforcer {
    /// The breach, if there was one, and the counts so far.
    pub fn report(&self) -> BudgetReport
        ensures is_the_report_so_far { result ≡ self.now.report }
        ensures counts_under_checked_limits { IsUnderCheckedLimits self.now }
        ensures no_limit_of_depth_is_above_256 { self.now.budget.max_depth ≤ 256 }
        ensures at_most_256_containers_are_open { length self.now.around ≤ 256 }
        ensures key_and_value_alternate { KeyAndValueAlternate self.now }
    {
        self.report
    }

    /// Ends the counting with the report.
    pub fn into_report(self) -> BudgetReport
        ensures is_the_report_at_the_end { result ≡ reported self }
    {
        BudgetReport {
            anchors: self.anchors.len(),
            ..self.report
        }
    }
}
