//! The unfolding of the range of a number onto a tape.
ghost use Rattle.std.specs.Prelude.{◌≡◌, ℕ, ◌+◌, ◌<◌, ◌≤◌, length, OnOk};
ghost use Rattle.events.specs.Checked.{piece_in};
ghost use Rattle.events.specs.Rules.{is_alias};
ghost use Rattle.events.specs.Scores.{kind};
ghost use Rattle.fragment.specs.Ended.{ended};
ghost use Rattle.fragment.specs.Handed.{work};
ghost use Rattle.fragment.specs.Slate.{blank};
ghost use Rattle.fragment.specs.Sources.{score_in};
ghost use Rattle.fragment.specs.Unfolding.{alias_step, begun, event_step, judge_depth, run, shut, try_closed, unfolded, Unfolded, Work};
ghost use Rattle.fragment.specs.Unfolding.{refer as referred};
ghost use Rattle.fragment.specs.View.{counts, score_of};

use crate::answers::{FragmentError, Passage};
use crate::number::NodeNumber;
use crate::slate::{SLATE_BYTES, SlateGuard};
use crate::source::Source;
use crate::tally::Tally;
use crate::tape::Tape;
use budget::enforcer::BudgetEnforcer;
use budget::limits::{AliasLimits, CheckedLimits, within};
use events::kinds::EventKind;
use events::score::{Event, NodeRange};
use events::sound::SoundPiece;

/// Whether an event is an alias.
fn is_alias(event: Event) -> bool
    ensures { result ≡ is_alias (kind event) }
{
    event.kind() == Some(EventKind::Alias)
}

/// Refuses a number whose range is open.
fn try_closed(slate: &[u8; SLATE_BYTES], number: NodeNumber) -> Result<(), FragmentError>
    ensures { (w : Work) → ended result w ≡ try_closed slate.now number.number w }
{
    if slate[number.slot()] != 0 {
        return Err(FragmentError::OpenRange {
            number: number.number,
        });
    }
    Ok(())
}

/// The ranges open before one that an alias opens, against their limit.
fn judge_depth(limits: &AliasLimits, depth: u32) -> Result<(), FragmentError>
    ensures { (w : Work) → ended result w ≡ judge_depth limits.now depth w }
{
    within(
        depth,
        limits.max_replay_stack_depth,
        FragmentError::ReplayDepth { depth },
    )
}

/// One unfolding: the tape and the enforcer that it is lent, and what it counts.
#[derive(Drop)]
pub(crate) struct Unfolding<'a> {
    pub(crate) tape: &'a mut Tape,
    pub(crate) enforcer: &'a mut BudgetEnforcer,
    pub(crate) tally: Tally,
}

impl Unfolding<'_> {
    /// Tells the enforcer of an alias that is replaced.
    fn refer(&mut self) -> Result<(), FragmentError>
        ensures steps { ended result (work self.new) ≡ referred (work self.old) }
        ensures same_tape { self.new.tape.ghost_name ≡ self.old.tape.ghost_name }
        ensures same_enforcer { self.new.enforcer.ghost_name ≡ self.old.enforcer.ghost_name }
    {
        self.enforcer
            .observe_alias_reference()
            .map_err(FragmentError::EnforcerBreach)
    }

    /// The tests at an alias to a number, in order.
    fn meet_alias(
        &mut self,
        source: &Source,
        slate: &[u8; SLATE_BYTES],
        depth: u32,
        number: NodeNumber,
    ) -> Result<(), FragmentError>
        ensures steps { ended result (work self.new) ≡ alias_step (score_in source.now) slate.now depth number.number (work self.old) }
        ensures same_tape { self.new.tape.ghost_name ≡ self.old.tape.ghost_name }
        ensures same_enforcer { self.new.enforcer.ghost_name ≡ self.old.enforcer.ghost_name }
    {
        let limits = &source.limits;
        try_closed(slate, number)?;
        self.tally.charge_alias();
        self.refer()?;
        self.tally.judge_aliases(&limits.budget)?;
        self.tally.count_expansion(&limits.alias_limits, number)?;
        judge_depth(&limits.alias_limits, depth)
    }

    /// The tests at another event, in order; then its place in the stock is written.
    fn meet_event(&mut self, source: &Source, depth: u32, place: u32) -> Result<(), FragmentError>
        requires { place < length source.now.events.now }
        ensures steps { ended result (work self.new) ≡ event_step (score_in source.now) depth place (work self.old) }
        ensures same_tape { self.new.tape.ghost_name ≡ self.old.tape.ghost_name }
        ensures same_enforcer { self.new.enforcer.ghost_name ≡ self.old.enforcer.ghost_name }
    {
        self.tally
            .charge_replayed(&source.limits.alias_limits, depth)?;
        self.tally
            .weigh(&source.limits.budget, source.events[place as usize])?;
        self.tally.count_event(&source.limits.budget)?;
        self.tape.push(source.base + place)
    }

    /// Unfolds a range behind what is written: an alias opens the range of its number, any other event is written.
    /// Each number that is opened is closed again where nothing is refused.
    fn walk(
        &mut self,
        source: &Source,
        slate: &mut [u8; SLATE_BYTES],
        range: NodeRange,
        depth: u32,
    ) -> Result<(), FragmentError>
        requires inside { range.last < length source.now.events.now }
        requires depth { depth + shut slate.old ≤ 256 }
        ensures unfolds_the_range { ended result (work self.new) ≡ run (score_in source.now) (shut slate.old) slate.old depth range (work self.old) }
        ensures closes_what_it_opened { OnOk result (slate.new ≡ slate.old) }
        ensures same_tape { self.new.tape.ghost_name ≡ self.old.tape.ghost_name }
        ensures same_enforcer { self.new.enforcer.ghost_name ≡ self.old.enforcer.ghost_name }
    {
        // A range of places, and no iterator over events: the place is what is written on the tape.
        for place in range.first..range.last + 1 {
            let event = source.events[place as usize];
            if is_alias(event) {
                let number = NodeNumber {
                    number: event.anchor,
                };
                self.meet_alias(source, slate, depth, number)?;
                let slot = (event.anchor - 1) as usize;
                let named = source.range(event.anchor);
                slate[slot] = 1;
                self.walk(source, slate, named, depth + 1)?;
                slate[slot] = 0;
            } else {
                self.meet_event(source, depth, place)?;
            }
        }
        Ok(())
    }

    /// Unfolds the range of a number behind what is written on the tape. A refusal leaves the tape as it was; what was charged stays charged.
    /// On every way out no range is open.
    pub(crate) fn unfold_target(
        &mut self,
        sound: SoundPiece,
        limits: &CheckedLimits,
        target: u32,
        slate: &mut [u8; SLATE_BYTES],
    ) -> Result<Passage, FragmentError>
        requires target { (1 ≤ target) × (target ≤ (piece_in sound).marks.len) }
        requires all_closed { slate.old ≡ blank }
        requires begun { counts self.old.tally ≡ begun self.old.tally.charges }
        ensures unfolds_the_target { ◌≡◌ {A = Unfolded} (record { answer = result; tape = self.new.tape.now; charges = self.new.tally.charges; enforcer = self.new.enforcer.now }) (unfolded (score_of sound.entry limits.now) target self.old.tape.now self.old.tally.charges self.old.enforcer.now) }
        ensures leaves_all_closed { slate.new ≡ blank }
        ensures same_tape { self.new.tape.ghost_name ≡ self.old.tape.ghost_name }
        ensures same_enforcer { self.new.enforcer.ghost_name ≡ self.old.enforcer.ghost_name }
    {
        let source = Source::new(sound, limits);
        let range = source.range(target);
        let before = self.tape.len();
        let guard = SlateGuard { slate };
        guard.slate[(target - 1) as usize] = 1;
        let done = self.walk(&source, guard.slate, range, 1);
        // No `?`: a refusal cuts the tape first.
        match done {
            Ok(()) => Ok(self.tally.passage()),
            Err(refusal) => {
                self.tape.cut(before);
                Err(refusal)
            }
        }
    }
}
