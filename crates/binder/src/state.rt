//! The binder: packed bytes, and a flag for each entry that is withdrawn.
ghost use Rattle.std.specs.Prelude.{◌≡◌, ◌≤◌, true, length};
ghost use Rattle.catalogue.specs.Entries.{Lawful};
ghost use Rattle.binder.specs.Binding.{fine, flagged};
ghost use Rattle.binder.specs.Entries.{wrong, count_of, listed};

pub mod calls;

// Which entries are withdrawn, by their places in the list.
#[derive(Drop)]
struct Flags {
    // A fixed table, read by place: nothing is allocated.
    withdrawn: [bool; 256],
}

/// A catalogue over packed bytes that it borrows. The bytes are good, and say how many entries there are.
#[derive(Drop)]
pub struct Binder<'a> {
    bytes: &'a [u8],
    flags: Flags,
    ghost a_flag_for_each: { length flags.withdrawn ≡ 256 },
    ghost at_most_256: { count_of bytes.now ≤ 256 },
    ghost good: { fine (wrong bytes.now) ≡ true },
    ghost lawful: { Lawful (flagged 0 flags.withdrawn (listed bytes.now)) },
}
