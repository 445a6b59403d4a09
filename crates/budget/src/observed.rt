//! Events as the enforcer is shown them.
ghost use Rattle.std.specs.Prelude.{◌≡◌, ◌≤◌, if◌then◌else◌, Some, None, nat_le};
ghost use Rattle.std.specs.Option.{option_map};

use events::kinds::{EventKind, ScalarStyle};

/// The number of an anchor, at most 1,023; 0 stands for no anchor.
#[derive(Clone, Copy, Debug, PartialEq, Eq)]
pub struct AnchorNumber {
    pub(crate) number: u32,
    ghost small: { number ≤ 1023 },
}

impl AnchorNumber {
    /// The anchor number, if it is at most 1,023.
    pub fn new(number: u32) -> Option<AnchorNumber>
        ensures takes_numbers_up_to_1023 { option_map (λ a. a.number) result ≡ (if nat_le number 1023 then Some number else None) }
    {
        if number <= 1023 {
            Some(AnchorNumber { number })
        } else {
            None
        }
    }

    /// The number.
    pub fn get(self) -> u32
        ensures is_the_number { result ≡ self.number }
        ensures is_at_most_1023 { result ≤ 1023 }
    {
        self.number
    }
}

/// An event: its kind, its anchor number, the bytes of its value and its tag, and its style. A tag of no bytes is no tag.
#[derive(Clone, Copy, Debug, PartialEq, Eq)]
pub struct ObservedEvent<'a> {
    pub kind: EventKind,
    pub anchor: AnchorNumber,
    pub value: &'a [u8],
    pub tag: &'a [u8],
    pub style: ScalarStyle,
}
