//! What the enforcer answers: breaches, and the report of its counts.
use std::error::Error;
use std::fmt;

/// The limit that was passed, with the counts at that moment.
#[derive(Clone, Copy, Debug, PartialEq, Eq)]
pub enum BudgetBreach {
    /// More events than `max_events`.
    Events { events: u32 },
    /// More aliases than `max_aliases`.
    Aliases { aliases: u32 },
    /// More distinct anchors than `max_anchors`.
    Anchors { anchors: u32 },
    /// A depth above `max_depth`.
    Depth { depth: u32 },
    /// More documents than `max_documents`.
    Documents { documents: u32 },
    /// More nodes than `max_nodes`.
    Nodes { nodes: u32 },
    /// More bytes of values and tags than `max_total_scalar_bytes`.
    ScalarBytes { total_scalar_bytes: u32 },
    /// More merge keys than `max_merge_keys`.
    MergeKeys { merge_keys: u32 },
    /// Too many aliases for the anchors that were defined.
    AliasAnchorRatio { aliases: u32, anchors: u32 },
    /// An end without the start that it would close.
    SequenceUnbalanced,
}

impl fmt::Display for BudgetBreach {
    fn fmt<W: fmt::Write>(&self, f: &mut fmt::Formatter<W>) -> fmt::Result {
        match self {
            BudgetBreach::Events { events } => {
                write!(f, "{events} events are more than max_events")
            }
            BudgetBreach::Aliases { aliases } => {
                write!(f, "{aliases} aliases are more than max_aliases")
            }
            BudgetBreach::Anchors { anchors } => {
                write!(f, "{anchors} anchors are more than max_anchors")
            }
            BudgetBreach::Depth { depth } => write!(f, "depth {depth} is above max_depth"),
            BudgetBreach::ScalarBytes { total_scalar_bytes } => write!(
                f,
                "{total_scalar_bytes} bytes are more than max_total_scalar_bytes"
            ),
            BudgetBreach::Documents { documents } => {
                write!(f, "{documents} documents are more than max_documents")
            }
            BudgetBreach::Nodes { nodes } => write!(f, "{nodes} nodes are more than max_nodes"),
            BudgetBreach::MergeKeys { merge_keys } => {
                write!(f, "{merge_keys} merge keys are more than max_merge_keys")
            }
            BudgetBreach::AliasAnchorRatio { aliases, anchors } => {
                write!(f, "{aliases} aliases are too many for {anchors} anchors")
            }
            BudgetBreach::SequenceUnbalanced => f.write_str("an end closes no start"),
        }
    }
}

impl Error for BudgetBreach {}

/// The first breach, if there was one, and the counts. A count stops at the largest number of 32 bits.
#[derive(Clone, Copy, Debug, Default, PartialEq, Eq)]
pub struct BudgetReport {
    /// The first breach.
    pub breached: Option<BudgetBreach>,
    /// Events and alias references.
    pub events: u32,
    /// Alias events and alias references.
    pub aliases: u32,
    /// Distinct anchor numbers.
    pub anchors: u32,
    /// Documents, where all content is counted together.
    pub documents: u32,
    /// Scalars, sequences and mappings.
    pub nodes: u32,
    /// The deepest depth.
    pub max_depth: u32,
    /// Bytes of scalars' values and of all nodes' tags.
    pub total_scalar_bytes: u32,
    /// Merge keys.
    pub merge_keys: u32,
}
