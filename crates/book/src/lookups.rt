//! Look-ups among the lines of a book.
ghost use Rattle.std.specs.Prelude.{◌≡◌};
ghost use Rattle.std.specs.List.{list_any};
ghost use Rattle.book.specs.Lookups.{withdraws};

use crate::lines::Withdrawal;

/// Whether a number is withdrawn.
pub fn is_withdrawn(withdrawn: &[Withdrawal], number: u32) -> bool
    ensures some_line_withdraws_it { result ≡ list_any (withdraws number) withdrawn.now }
{
    withdrawn.iter().any(|entry| entry.number == number)
}
