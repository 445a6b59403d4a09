//! Writes breaches and reports.
use budget::breach::{BudgetBreach, BudgetReport};
use std::alloc::{AllocError, Global};

/// The name of a breach and its counts.
pub fn breach_text(heap: Global, breach: BudgetBreach) -> Result<String, AllocError> {
    match breach {
        BudgetBreach::Events { events } => format!(in heap; "Events {events}"),
        BudgetBreach::Aliases { aliases } => format!(in heap; "Aliases {aliases}"),
        BudgetBreach::Anchors { anchors } => format!(in heap; "Anchors {anchors}"),
        BudgetBreach::Depth { depth } => format!(in heap; "Depth {depth}"),
        BudgetBreach::Documents { documents } => format!(in heap; "Documents {documents}"),
        BudgetBreach::Nodes { nodes } => format!(in heap; "Nodes {nodes}"),
        BudgetBreach::ScalarBytes { total_scalar_bytes } => {
            format!(in heap; "ScalarBytes {total_scalar_bytes}")
        }
        BudgetBreach::MergeKeys { merge_keys } => format!(in heap; "MergeKeys {merge_keys}"),
        BudgetBreach::AliasAnchorRatio { aliases, anchors } => {
            format!(in heap; "AliasAnchorRatio {aliases} {anchors}")
        }
        BudgetBreach::SequenceUnbalanced => String::from_str(heap, "SequenceUnbalanced"),
    }
}

/// The breach of a report, and its counts.
pub fn report_text(heap: Global, report: BudgetReport) -> Result<String, AllocError> {
    let BudgetReport {
        breached,
        events,
        aliases,
        anchors,
        documents,
        nodes,
        max_depth,
        total_scalar_bytes,
        merge_keys,
    } = report;
    let breached = match breached {
        Some(breach) => breach_text(heap, breach)?,
        None => String::from_str(heap, "none")?,
    };
    format!(in heap;
        "{breached} | {events} {aliases} {anchors} {documents} {nodes} {max_depth} {total_scalar_bytes} {merge_keys}"
    )
}
