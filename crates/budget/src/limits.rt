//! The limits of a book, and the check that none of them is too large.
ghost use Rattle.std.specs.Prelude.{◌≡◌};
ghost use Rattle.budget.specs.Limits.{field_number, standard_alias_limits, standard_budget, standard_limits};
ghost use Rattle.budget.specs.Limits.{within as within_limit};

mod checking;

pub use checking::CheckedLimits;
use std::error::Error;
use std::fmt;

/// How much may be observed.
#[derive(Clone, Copy, Debug, PartialEq, Eq)]
pub struct Budget {
    /// The bytes that may be read for inserts; no limit if absent.
    pub max_reader_input_bytes: Option<u32>,
    pub max_events: u32,
    pub max_aliases: u32,
    pub max_anchors: u32,
    pub max_depth: u32,
    pub max_inclusion_depth: u32,
    /// Used where all content is counted together.
    pub max_documents: u32,
    pub max_nodes: u32,
    pub max_total_scalar_bytes: u32,
    pub max_merge_keys: u32,
    /// Whether the ratio of aliases to anchors is judged.
    pub enforce_alias_anchor_ratio: bool,
    /// With fewer aliases the ratio is not judged.
    pub alias_anchor_min_aliases: u32,
    /// How many aliases there may be to an anchor.
    pub alias_anchor_ratio_multiplier: u32,
}

/// How much may be replayed for aliases.
#[derive(Clone, Copy, Debug, PartialEq, Eq)]
pub struct AliasLimits {
    pub max_total_replayed_events: u32,
    pub max_replay_stack_depth: u32,
    pub max_alias_expansions_per_anchor: u32,
}

/// The limits of a book, not checked.
#[derive(Clone, Copy, Debug, PartialEq, Eq)]
pub struct Limits {
    pub budget: Budget,
    pub alias_limits: AliasLimits,
}

/// The limits that are numbers, by name.
#[derive(Clone, Copy, Debug, PartialEq, Eq)]
pub enum LimitField {
    MaxReaderInputBytes,
    MaxEvents,
    MaxAliases,
    MaxAnchors,
    MaxDepth,
    MaxInclusionDepth,
    MaxDocuments,
    MaxNodes,
    MaxTotalScalarBytes,
    MaxMergeKeys,
    AliasAnchorMinAliases,
    AliasAnchorRatioMultiplier,
    MaxTotalReplayedEvents,
    MaxReplayStackDepth,
    MaxAliasExpansionsPerAnchor,
}

/// The place of the limit, from 0: the budget's fields, and then those of the alias limits.
impl From<LimitField> for u32 {
    ghost from_gives = { λ field place. place ≡ field_number field };

    fn from(field: LimitField) -> u32 {
        field as u32
    }
}

impl fmt::Display for LimitField {
    fn fmt<W: fmt::Write>(&self, f: &mut fmt::Formatter<W>) -> fmt::Result {
        let number = u32::from(*self);
        write!(f, "limit {number} is too large")
    }
}

impl Error for LimitField {}

impl Default for Budget {
    ghost is_default = { λ b. b ≡ standard_budget };

    /// The limits that hold where nothing else is wanted.
    fn default() -> Budget {
        Budget {
            max_reader_input_bytes: Some(268_435_456),
            max_events: 1_000_000,
            max_aliases: 50_000,
            max_anchors: 50_000,
            max_depth: 64,
            max_inclusion_depth: 24,
            max_documents: 1_024,
            max_nodes: 250_000,
            max_total_scalar_bytes: 67_108_864,
            max_merge_keys: 10_000,
            enforce_alias_anchor_ratio: true,
            alias_anchor_min_aliases: 100,
            alias_anchor_ratio_multiplier: 10,
        }
    }
}

impl Default for AliasLimits {
    ghost is_default = { λ a. a ≡ standard_alias_limits };

    /// The limits that hold where nothing else is wanted.
    fn default() -> AliasLimits {
        AliasLimits {
            max_total_replayed_events: 1_000_000,
            max_replay_stack_depth: 64,
            max_alias_expansions_per_anchor: 1 << 30,
        }
    }
}

impl Default for Limits {
    ghost is_default = { λ l. l ≡ standard_limits };

    /// The limits that hold where nothing else is wanted.
    fn default() -> Limits {
        Limits {
            budget: Budget::default(),
            alias_limits: AliasLimits::default(),
        }
    }
}

/// A count above its limit is the error.
pub fn within<E: Drop>(count: u32, limit: u32, error: E) -> Result<(), E>
    ensures is_the_error_above_the_limit { result ≡ within_limit count limit error }
{
    if count > limit {
        return Err(error);
    }
    Ok(())
}
