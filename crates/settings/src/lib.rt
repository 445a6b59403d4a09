//! Limits and policies as they are written in the call of a program: `NAME=NUMBER` by the limit's name; `max_reader_input_bytes=-` is no limit.
#![tactic(auto)]

use anyhow::{Context, bail};
use budget::limits::{AliasLimits, Limits};
use budget::policy::{EnforcingPolicy, MergeKeyPolicy};

fn set_alias_limit(limits: &mut AliasLimits, name: &str, number: u32) -> anyhow::Result<()> {
    match name {
        "max_total_replayed_events" => limits.max_total_replayed_events = number,
        "max_replay_stack_depth" => limits.max_replay_stack_depth = number,
        "max_alias_expansions_per_anchor" => limits.max_alias_expansions_per_anchor = number,
        _ => bail!("no such limit"),
    }
    Ok(())
}

fn set_limit(limits: &mut Limits, name: &str, number: u32) -> anyhow::Result<()> {
    let budget = &mut limits.budget;
    match name {
        "max_reader_input_bytes" => budget.max_reader_input_bytes = Some(number),
        "max_events" => budget.max_events = number,
        "max_aliases" => budget.max_aliases = number,
        "max_anchors" => budget.max_anchors = number,
        "max_depth" => budget.max_depth = number,
        "max_inclusion_depth" => budget.max_inclusion_depth = number,
        "max_documents" => budget.max_documents = number,
        "max_nodes" => budget.max_nodes = number,
        "max_total_scalar_bytes" => budget.max_total_scalar_bytes = number,
        "max_merge_keys" => budget.max_merge_keys = number,
        "enforce_alias_anchor_ratio" => budget.enforce_alias_anchor_ratio = number != 0,
        "alias_anchor_min_aliases" => budget.alias_anchor_min_aliases = number,
        "alias_anchor_ratio_multiplier" => budget.alias_anchor_ratio_multiplier = number,
        _ => return set_alias_limit(&mut limits.alias_limits, name, number),
    }
    Ok(())
}

/// Sets what `NAME=NUMBER` says.
pub fn read_limit(limits: &mut Limits, word: &str) -> anyhow::Result<()> {
    let (name, digits) = word.split_once("=").context("a limit without a number")?;
    if name == "max_reader_input_bytes" && digits == "-" {
        limits.budget.max_reader_input_bytes = None;
        return Ok(());
    }
    set_limit(limits, name, digits.parse::<u32>()?)
}

/// The standard limits, changed as the words say.
pub fn read_limits(column: &str) -> anyhow::Result<Limits> {
    let mut limits = Limits::default();
    for word in column.split_whitespace() {
        read_limit(&mut limits, word)?;
    }
    Ok(limits)
}

fn read_counting(word: &str) -> anyhow::Result<EnforcingPolicy> {
    match word {
        "all-content" => Ok(EnforcingPolicy::AllContent),
        "per-document" => Ok(EnforcingPolicy::PerDocument),
        _ => bail!("no such counting policy"),
    }
}

fn read_merge(word: &str) -> anyhow::Result<MergeKeyPolicy> {
    match word {
        "merge" => Ok(MergeKeyPolicy::Merge),
        "as-ordinary" => Ok(MergeKeyPolicy::AsOrdinary),
        "error" => Ok(MergeKeyPolicy::Error),
        _ => bail!("no such merge policy"),
    }
}

/// What is counted together, and what is done with merge keys.
pub fn read_policies(column: &str) -> anyhow::Result<(EnforcingPolicy, MergeKeyPolicy)> {
    let (counting, merge) = column
        .trim()
        .split_once(" ")
        .context("two policies are wanted")?;
    Ok((read_counting(counting)?, read_merge(merge)?))
}
