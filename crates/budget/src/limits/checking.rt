//! The check of limits. Checked limits are a type of their own, and only the check makes them.
ghost use Rattle.std.specs.Prelude.{◌≡◌, ◌^◌, ◌≤◌, true};
ghost use Rattle.std.specs.List.{find};
ghost use Rattle.budget.specs.Limits.{allowed, bound_of, first_too_large, given_for, on_ok, or_absent, too_large, verdict};

use crate::limits::{AliasLimits, Budget, LimitField, Limits};

/// Limits of which none is above its bound. What counts against limits takes this type.
#[derive(Clone, Copy, Debug, PartialEq, Eq)]
pub struct CheckedLimits {
    pub(crate) limits: Limits,
    ghost none_too_large: { allowed limits ≡ true },
    ghost shallow: { limits.budget.max_depth ≤ 256 },
}

/// The limits that are numbers, in the order of their places.
const FIELDS: [LimitField; 15] = [
    LimitField::MaxReaderInputBytes,
    LimitField::MaxEvents,
    LimitField::MaxAliases,
    LimitField::MaxAnchors,
    LimitField::MaxDepth,
    LimitField::MaxInclusionDepth,
    LimitField::MaxDocuments,
    LimitField::MaxNodes,
    LimitField::MaxTotalScalarBytes,
    LimitField::MaxMergeKeys,
    LimitField::AliasAnchorMinAliases,
    LimitField::AliasAnchorRatioMultiplier,
    LimitField::MaxTotalReplayedEvents,
    LimitField::MaxReplayStackDepth,
    LimitField::MaxAliasExpansionsPerAnchor,
];

impl LimitField {
    /// What the limit may be at most.
    fn bound(self) -> u32
        ensures { result ≡ bound_of self }
    {
        match self {
            LimitField::MaxDepth => 256,
            LimitField::MaxInclusionDepth => 31,
            _ => 1 << 30,
        }
    }
}

impl Limits {
    /// The number that is given for a limit. An absent limit is never too large.
    fn given(&self, field: LimitField) -> u32
        ensures { result ≡ given_for field self.now }
    {
        match field {
            LimitField::MaxReaderInputBytes => self.budget.max_reader_input_bytes.unwrap_or(0),
            LimitField::MaxEvents => self.budget.max_events,
            LimitField::MaxAliases => self.budget.max_aliases,
            LimitField::MaxAnchors => self.budget.max_anchors,
            LimitField::MaxDepth => self.budget.max_depth,
            LimitField::MaxInclusionDepth => self.budget.max_inclusion_depth,
            LimitField::MaxDocuments => self.budget.max_documents,
            LimitField::MaxNodes => self.budget.max_nodes,
            LimitField::MaxTotalScalarBytes => self.budget.max_total_scalar_bytes,
            LimitField::MaxMergeKeys => self.budget.max_merge_keys,
            LimitField::AliasAnchorMinAliases => self.budget.alias_anchor_min_aliases,
            LimitField::AliasAnchorRatioMultiplier => self.budget.alias_anchor_ratio_multiplier,
            LimitField::MaxTotalReplayedEvents => self.alias_limits.max_total_replayed_events,
            LimitField::MaxReplayStackDepth => self.alias_limits.max_replay_stack_depth,
            LimitField::MaxAliasExpansionsPerAnchor => {
                self.alias_limits.max_alias_expansions_per_anchor
            }
        }
    }

    /// Whether a limit is above its bound.
    fn is_too_large(&self, field: LimitField) -> bool
        ensures { result ≡ too_large self.now field }
    {
        self.given(field) > field.bound()
    }

    /// The first of the limits that is above its bound.
    fn first_too_large(&self) -> Option<LimitField>
        ensures { result ≡ first_too_large self.now }
    {
        FIELDS
            .iter()
            .copied()
            .find(|field| self.is_too_large(*field))
    }

    /// Answers the limits as checked ones, or the first that is above its bound.
    pub fn check(self) -> Result<CheckedLimits, LimitField>
        ensures tells_the_first_too_large_or_checks_all { on_ok (λ l. l.limits) result ≡ verdict self }
    {
        match self.first_too_large() {
            Some(field) => Err(field),
            None => Ok(CheckedLimits { limits: self }),
        }
    }
}

impl CheckedLimits {
    /// The budget that was checked.
    pub fn budget(&self) -> Budget
        ensures is_the_budget_checked { result ≡ self.now.limits.budget }
    {
        self.limits.budget
    }

    /// The alias limits that were checked.
    pub fn alias_limits(&self) -> AliasLimits
        ensures are_the_alias_limits_checked { result ≡ self.now.limits.alias_limits }
    {
        self.limits.alias_limits
    }
}
