//! What the unfolding of a passage answers.
ghost use Rattle.std.specs.Prelude.{◌≡◌};
ghost use Rattle.fragment.specs.Refusals.{error_layer, error_number};
ghost use Rattle.fragment.specs.declared.answers.FragmentError.TheVariants.{Unsound as unsound};

use budget::breach::BudgetBreach;
use events::kinds::Rule;
use refusals::Layer;
use std::error::Error;
use std::fmt;

/// What was charged for inserts so far: aliases that were replaced, and events that were replayed for them.
#[derive(Clone, Copy, Debug, Default, PartialEq, Eq)]
pub struct Charges {
    pub aliases: u32,
    pub replayed: u32,
}

/// A passage that was unfolded: how many events it has, how many aliases were replaced, and how many of the events were replayed for them.
#[derive(Clone, Copy, Debug, PartialEq, Eq)]
pub struct Passage {
    pub events: u32,
    pub aliases: u32,
    pub replayed: u32,
}

/// Why a passage is refused.
#[derive(Clone, Copy, Debug, PartialEq, Eq)]
pub enum FragmentError {
    /// The slate has fewer than 256 bytes: its length.
    ShortSlate { length: u32 },
    /// The piece is not sound: the first rule that it breaks.
    Unsound(Rule),
    /// Collection passes a limit of the budget.
    CollectionBreach(BudgetBreach),
    /// Unfolding passes a limit of the budget.
    UnfoldingBreach(BudgetBreach),
    /// The enforcer, told of an alias, answers a breach.
    EnforcerBreach(BudgetBreach),
    /// A second document starts at this place of the piece.
    SecondDocument { place: u32 },
    /// No mark has the wanted name.
    UnmarkedTarget,
    /// An alias names a number whose range is open.
    OpenRange { number: u32 },
    /// A number is expanded too often.
    Expansions { count: u32 },
    /// Too many ranges are open.
    ReplayDepth { depth: u32 },
    /// Too many events are replayed.
    ReplayedTotal { count: u32 },
    /// The tape has no place left.
    TapeFull,
}

impl fmt::Display for FragmentError {
    fn fmt<W: fmt::Write>(&self, f: &mut fmt::Formatter<W>) -> fmt::Result {
        match self {
            FragmentError::ShortSlate { length } => write!(
                f,
                "a slate of {length} bytes is too short"
            ),
            FragmentError::Unsound(rule) => write!(f, "{rule}"),
            FragmentError::CollectionBreach(breach)
            | FragmentError::UnfoldingBreach(breach)
            | FragmentError::EnforcerBreach(breach) => write!(f, "{breach}"),
            FragmentError::SecondDocument { place } => write!(
                f,
                "a second document starts at place {place}"
            ),
            FragmentError::UnmarkedTarget => f.write_str("no mark has this name"),
            FragmentError::OpenRange { number } => write!(
                f,
                "an alias names number {number}, whose node it lies in"
            ),
            FragmentError::Expansions { count } => write!(
                f,
                "one anchor is expanded {count} times, more than max_alias_expansions_per_anchor"
            ),
            FragmentError::ReplayDepth { depth } => write!(
                f,
                "replay depth {depth} is above max_replay_stack_depth"
            ),
            FragmentError::ReplayedTotal { count } => write!(
                f,
                "{count} replayed events are more than max_total_replayed_events"
            ),
            FragmentError::TapeFull => f.write_str("the passage has more than 8192 events"),
        }
    }
}

impl Error for FragmentError {}

impl From<Rule> for FragmentError {
    ghost from_gives = { λ rule e. e ≡ unsound rule };

    fn from(rule: Rule) -> FragmentError {
        Self::Unsound(rule)
    }
}

/// The number of the refusal.
impl From<FragmentError> for u32 {
    ghost from_gives = { λ error number. number ≡ error_number error };

    fn from(error: FragmentError) -> u32 {
        match error {
            FragmentError::ShortSlate { .. } => 3,
            FragmentError::Unsound(_) => 14,
            FragmentError::CollectionBreach(_) => 15,
            FragmentError::UnfoldingBreach(_) => 15,
            FragmentError::EnforcerBreach(_) => 15,
            FragmentError::SecondDocument { .. } => 16,
            FragmentError::UnmarkedTarget => 17,
            FragmentError::OpenRange { .. } => 18,
            FragmentError::Expansions { .. } => 19,
            FragmentError::ReplayDepth { .. } => 20,
            FragmentError::ReplayedTotal { .. } => 21,
            FragmentError::TapeFull => 22,
        }
    }
}

impl FragmentError {
    /// The layer that refuses.
    pub fn layer(self) -> Layer
        ensures is_the_layer_that_refuses { result ≡ error_layer self }
    {
        match self {
            FragmentError::ShortSlate { .. } => Layer::Session,
            FragmentError::Unsound(_) => Layer::Collection,
            FragmentError::CollectionBreach(_) => Layer::Collection,
            FragmentError::SecondDocument { .. } => Layer::Collection,
            FragmentError::UnmarkedTarget => Layer::Collection,
            FragmentError::EnforcerBreach(_) => Layer::Enforcer,
            FragmentError::UnfoldingBreach(_) => Layer::Unfolding,
            FragmentError::OpenRange { .. } => Layer::Unfolding,
            FragmentError::Expansions { .. } => Layer::Unfolding,
            FragmentError::ReplayDepth { .. } => Layer::Unfolding,
            FragmentError::ReplayedTotal { .. } => Layer::Unfolding,
            FragmentError::TapeFull => Layer::Unfolding,
        }
    }
}
