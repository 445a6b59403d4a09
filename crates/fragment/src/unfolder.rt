//! What goes on from passage to passage.
ghost use Rattle.std.specs.Prelude.{◌≡◌};
ghost use Rattle.fragment.specs.Handed.{charged};

use crate::answers::Charges;
use crate::tape::Tape;
use budget::enforcer::BudgetEnforcer;

/// Unfolds passages: each behind what is written on the tape, with what was charged so far, and with an enforcer that is told of each alias.
#[derive(Drop)]
pub struct Unfolder {
    pub tape: Tape,
    pub enforcer: BudgetEnforcer,
    pub(crate) charges: Charges,
}

impl Unfolder {
    /// An unfolder that goes on from a tape, charges and an enforcer.
    pub fn new(tape: Tape, charges: Charges, enforcer: BudgetEnforcer) -> Unfolder
        ensures goes_on_from_the_tape { result.tape ≡ tape }
        ensures goes_on_from_the_charges { charged result ≡ charges }
        ensures goes_on_from_the_enforcer { result.enforcer ≡ enforcer }
    {
        Unfolder {
            tape,
            enforcer,
            charges,
        }
    }

    /// Takes other charges to go on from, as where a document starts.
    pub fn set_charges(&mut self, charges: Charges)
        ensures goes_on_from_the_charges { charged self.new ≡ charges }
        ensures keeps_the_tape { self.new.tape ≡ self.old.tape }
        ensures keeps_the_enforcer { self.new.enforcer ≡ self.old.enforcer }
    {
        self.charges = charges;
    }

    /// What was charged so far.
    pub fn charges(&self) -> Charges
        ensures is_what_was_charged { result ≡ charged self.now }
    {
        self.charges
    }

    /// Gives back the tape, what was charged, and the enforcer.
    pub fn into_parts(self) -> (Tape, Charges, BudgetEnforcer)
        ensures gives_the_tape { result.0 ≡ self.tape }
        ensures gives_the_charges { result.1 ≡ charged self }
        ensures gives_the_enforcer { result.2 ≡ self.enforcer }
    {
        let Unfolder {
            tape,
            enforcer,
            charges: charged,
        } = self;
        (tape, charged, enforcer)
    }
}
