//! A passage by piece and anchor name.
ghost use Rattle.std.specs.Prelude.{◌≡◌};
ghost use Rattle.events.specs.Scores.{lists};
ghost use Rattle.fragment.specs.Collection.{collected};
ghost use Rattle.fragment.specs.Gloria.{ComputedPassages};
ghost use Rattle.fragment.specs.Handed.{handed, lent, lent_to};
ghost use Rattle.fragment.specs.Laws.{LawsOfUnfolding};
ghost use Rattle.fragment.specs.PassageLaws.{Means};
ghost use Rattle.fragment.specs.PassageView.{asked, wanted, wanted_in};
ghost use Rattle.fragment.specs.Passages.{from_target, passage_for, Outcome};
ghost use Rattle.fragment.specs.Slate.{blank};
ghost use Rattle.fragment.specs.Unfolding.{begun};
ghost use Rattle.fragment.specs.View.{counts};

use crate::answers::{Charges, FragmentError, Passage};
use crate::collection::collect;
use crate::slate::{SLATE_BYTES, close_all};
use crate::tally::Tally;
use crate::tape::Tape;
use crate::unfolder::Unfolder;
use crate::unfolding::Unfolding;
use budget::enforcer::BudgetEnforcer;
use budget::limits::CheckedLimits;
use events::score::{Piece, Stock};
use events::sound::{SoundPiece, check};

/// A passage that is wanted: the anchor name of a node in a piece of a stock, and the limits.
#[derive(Clone, Copy)]
pub struct Wanted<'a> {
    pub stock: Stock<'a>,
    pub piece: Piece,
    pub name: &'a [u8],
    pub limits: CheckedLimits,
}

impl Unfolding<'_> {
    /// Collects and unfolds the passage of a name in a sound piece.
    fn unfold_named(
        &mut self,
        sound: SoundPiece,
        name: &[u8],
        limits: &CheckedLimits,
        slate: &mut [u8; SLATE_BYTES],
    ) -> Result<Passage, FragmentError>
        requires all_closed { slate.old ≡ blank }
        requires begun { counts self.old.tally ≡ begun self.old.tally.charges }
        ensures collects_and_unfolds { ◌≡◌ {A = Outcome} (record { answer = result; left = lent_to blank self.new }) (from_target (wanted_in sound.entry name.now limits.now) (collected limits.now.limits.budget (wanted_in sound.entry name.now limits.now).stock (wanted_in sound.entry name.now limits.now).piece name.now) (lent_to blank self.old)) }
        ensures leaves_all_closed { slate.new ≡ blank }
        ensures same_tape { self.new.tape.ghost_name ≡ self.old.tape.ghost_name }
        ensures same_enforcer { self.new.enforcer.ghost_name ≡ self.old.enforcer.ghost_name }
    {
        let target = collect(sound, name, *limits)?;
        self.unfold_target(sound, limits, target, slate)
    }
}

/// Unfolds the passage of a name in a piece behind what is written on the tape, for a caller that is lent the tape, the charges and the enforcer.
///
/// A slate of fewer than 256 bytes is refused, and all is as it was. From there on its first 256 bytes are 0 after every answer. A refusal leaves the tape as it was;
/// what was charged stays charged.
pub fn unfold_passage(
    stock: Stock,
    piece: Piece,
    name: &[u8],
    limits: &CheckedLimits,
    slate: &mut [u8],
    tape: &mut Tape,
    charges: &mut Charges,
    enforcer: &mut BudgetEnforcer,
) -> Result<Passage, FragmentError>
    ensures answers_and_leaves_as_defined { ◌≡◌ {A = Outcome} (record { answer = result; left = handed slate.new tape.new charges.new enforcer.new }) (passage_for (wanted (lists stock.entry) piece name.now limits.now) (handed slate.old tape.old charges.old enforcer.old)) }
    ensures is_the_unfolding_of_the_target { Means (wanted (lists stock.entry) piece name.now limits.now) (handed slate.old tape.old charges.old enforcer.old) (record { answer = result; left = handed slate.new tape.new charges.new enforcer.new }) }
    ensures keeps_the_laws_of_unfolding { LawsOfUnfolding }
    ensures gloria_unfolds_as_computed { ComputedPassages }
{
    let length = slate.len();
    let Some(open) = slate.first_chunk_mut::<SLATE_BYTES>() else {
        return Err(FragmentError::ShortSlate {
            length: length as u32,
        });
    };
    close_all(open);
    let sound = check(stock, piece)?;
    let mut unfolding = Unfolding {
        tape,
        enforcer,
        tally: Tally::begin(*charges),
    };
    let answer = unfolding.unfold_named(sound, name, limits, open);
    *charges = unfolding.tally.charges;
    answer
}

impl Unfolder {
    /// Unfolds the passage that is wanted behind what is written on the tape, as `unfold_passage` does.
    pub fn unfold_passage(
        &mut self,
        wanted: Wanted,
        slate: &mut [u8],
    ) -> Result<Passage, FragmentError>
        ensures answers_and_leaves_as_defined { ◌≡◌ {A = Outcome} (record { answer = result; left = lent slate.new self.new }) (passage_for (asked wanted.entry) (lent slate.old self.old)) }
        ensures is_the_unfolding_of_the_target { Means (asked wanted.entry) (lent slate.old self.old) (record { answer = result; left = lent slate.new self.new }) }
        ensures keeps_the_laws_of_unfolding { LawsOfUnfolding }
        ensures gloria_unfolds_as_computed { ComputedPassages }
    {
        let Wanted {
            stock,
            piece,
            name,
            limits,
        } = wanted;
        unfold_passage(
            stock,
            piece,
            name,
            &limits,
            slate,
            &mut self.tape,
            &mut self.charges,
            &mut self.enforcer,
        )
    }
}
