//! A passage of a score, unfolded and printed.
use crate::load::Loaded;
use crate::trouble::Trouble;
use budget::enforcer::BudgetEnforcer;
use budget::limits::CheckedLimits;
use budget::policy::{EnforcingPolicy, MergeKeyPolicy};
use catalogue::Catalogue;
use fragment::answers::{Charges, Passage};
use fragment::passage::Wanted;
use fragment::tape::Tape;
use fragment::unfolder::Unfolder;
use std::alloc::Global;
use tags::answers::IncludeSpec;

/// A passage as text, and its figures.
#[derive(Drop)]
pub struct Printed {
    pub text: Vec<u8>,
    pub passage: Passage,
}

// An unfolder that has unfolded nothing.
fn unfolder_under(limits: CheckedLimits) -> Unfolder {
    let enforcer = BudgetEnforcer::new(limits, EnforcingPolicy::AllContent, MergeKeyPolicy::Merge);
    Unfolder::new(Tape::new(), Charges::default(), enforcer)
}

/// Unfolds the passage of an anchor in the score of a path under limits.
pub fn unfold<C: Catalogue>(
    heap: Global,
    catalogue: &C,
    loaded: &Loaded,
    limits: CheckedLimits,
    insert: IncludeSpec<'_>,
) -> Result<Printed, Trouble> {
    let found = catalogue
        .resolve(insert.path)
        .map_err(|why| Trouble::Catalogue(why.at(0)))?;
    let score = loaded.score(found.piece);
    let wanted = Wanted {
        stock: score.stock,
        piece: score.piece,
        name: insert.anchor,
        limits,
    };
    let mut slate = [0; 256];
    let mut unfolder = unfolder_under(limits);
    let passage = unfolder.unfold_passage(wanted, &mut slate)?;
    Ok(Printed {
        text: score.print(heap, unfolder.tape.places())?,
        passage,
    })
}
