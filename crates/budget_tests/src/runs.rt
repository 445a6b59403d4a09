//! Runs a case.
use crate::answers::{breach_text, report_text};
use crate::inputs::{Word, read_word};
use anyhow::Context;
use budget::breach::BudgetBreach;
use budget::enforcer::BudgetEnforcer;
use budget::observed::AnchorNumber;
use settings::{read_limits, read_policies};
use std::alloc::{AllocError, Global};

/// The first refused input: its place, its breach, and how many later inputs got the same.
#[derive(Clone, Copy, Debug, PartialEq, Eq)]
struct Refused {
    place: usize,
    breach: BudgetBreach,
    again: usize,
}

/// An enforcer, and what it answered so far.
#[derive(Drop)]
struct Run {
    enforcer: BudgetEnforcer,
    observed: usize,
    refused: Option<Refused>,
}

impl Run {
    fn note(&mut self, breach: BudgetBreach) {
        match &mut self.refused {
            Some(refused) => {
                if refused.breach == breach {
                    refused.again = refused.again.saturating_add(1);
                }
            }
            None => {
                self.refused = Some(Refused {
                    place: self.observed,
                    breach,
                    again: 0,
                });
            }
        }
    }

    fn observe(&mut self, word: &Word, anchor: AnchorNumber) {
        let answer = match word.kind {
            Some(kind) => self.enforcer.observe(word.event(kind, anchor)),
            None => self.enforcer.observe_alias_reference(),
        };
        if let Err(breach) = answer {
            self.note(breach);
        }
        self.observed = self.observed.saturating_add(1);
    }

    fn observe_times(&mut self, word: &Word, number: u32) -> anyhow::Result<()> {
        let anchor = AnchorNumber::new(number).context("an anchor number is at most 1023")?;
        for _ in 0..word.times {
            self.observe(word, anchor);
        }
        Ok(())
    }

    fn observe_word(&mut self, word: &Word) -> anyhow::Result<()> {
        for number in word.first_anchor..=word.last_anchor {
            self.observe_times(word, number)?;
        }
        Ok(())
    }

    /// What was answered, and the report.
    fn text(self, heap: Global) -> Result<String, AllocError> {
        let refused = self.refused;
        let report = report_text(heap, self.enforcer.into_report())?;
        let Some(
            Refused {
                place,
                breach,
                again,
            },
        ) = refused
        else {
            return format!(in heap; "ok | {report}");
        };
        let breach = breach_text(heap, breach)?;
        format!(in heap; "at {place} {breach} again {again} | {report}")
    }
}

const COLUMNS_WANTED: &str = "three columns are wanted";

/// The three columns of a line.
fn columns(line: &str) -> anyhow::Result<(&str, &str, &str)> {
    let (limits, rest) = line.split_once("|").context(COLUMNS_WANTED)?;
    let (policies, inputs) = rest.split_once("|").context(COLUMNS_WANTED)?;
    Ok((limits, policies, inputs))
}

/// The answer to a case.
pub fn answer(heap: Global, line: &str) -> anyhow::Result<String> {
    let (limits, policies, inputs) = columns(line)?;
    let limits = read_limits(limits)?;
    let (counting, merge) = read_policies(policies)?;
    let checked = match limits.check() {
        Ok(checked) => checked,
        Err(field) => {
            let number = u32::from(field);
            return Ok(format!(in heap; "limit {number}")?);
        }
    };
    let mut run = Run {
        enforcer: BudgetEnforcer::new(checked, counting, merge),
        observed: 0,
        refused: None,
    };
    for word in inputs.split_whitespace() {
        let word = read_word(heap, word)?;
        run.observe_word(&word)?;
    }
    Ok(run.text(heap)?)
}
