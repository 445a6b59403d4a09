//! The binder's calls.
ghost use Rattle.std.specs.Prelude.{◌≡◌, ◌<◌, ◌≤◌, true, false, not, ◌&&◌, [], replicate, is_err, slice_index_or};
ghost use Rattle.binder.specs.Binding.{bound, flags_after};
ghost use Rattle.binder.specs.Laws.{AcceptedExactly};
ghost use Rattle.binder.specs.Meaning.{entries_of};

use crate::packed::PackedEntries;
use crate::state::{Binder, Flags};
use crate::whole::check;
use catalogue::Catalogue;
use catalogue::answers::{CatalogueError, Found, Unresolved};
use std::mem;

impl Flags {
    // No entry is withdrawn.
    fn new() -> Flags
        ensures none_is_set { result.withdrawn ≡ replicate 256 false }
    {
        Flags {
            withdrawn: [false; 256],
        }
    }

    // Withdraws the entry at a place, if it is meant; answers whether it was meant and stood.
    fn withdraw_if(&mut self, meant: bool, i: usize) -> bool
        requires { i < 256 }
        ensures flags { self.new.withdrawn ≡ flags_after meant i self.old.withdrawn }
        ensures stood { result ≡ (not (slice_index_or self.old.withdrawn i false) && meant) }
    {
        meant && !mem::replace(&mut self.withdrawn[i], true)
    }
}

impl<'a> Binder<'a> {
    /// An empty binder.
    pub fn new() -> Binder<'a>
        ensures is_empty { entries_of result ≡ [] }
    {
        Binder {
            bytes: b"PBK\x00\x01\x00\x00",
            flags: Flags::new(),
        }
    }

    /// Takes packed bytes in place of all that the binder had. Then all entries stand. Malformed bytes are refused with the start of the first wrong field, or of the first extra byte, and nothing changes.
    pub fn bind(&mut self, bytes: &'a [u8]) -> Result<(), CatalogueError>
        ensures tells_the_first_wrong_field { result ≡ (bound bytes.now (entries_of self.old)).answer }
        ensures a_binder_means_its_bytes { entries_of self.new ≡ (bound bytes.now (entries_of self.old)).entries }
        ensures refused_bytes_change_nothing { is_err result ≡ true → self.new ≡ self.old }
        ensures accepted_exactly_if_packed { AcceptedExactly bytes.now result (entries_of self.new) }
    {
        check(bytes)?;
        let flags = Flags::new();
        self.bytes = bytes;
        self.flags = flags;
        Ok(())
    }
}

impl<'a> Catalogue for Binder<'a> {
    ghost entries = { entries_of };

    ghost lawful = { λ b. b.lawful };

    fn resolve(&self, path: &[u8]) -> Result<Found, Unresolved> {
        let mut flagged = PackedEntries::of(self.bytes).zip(self.flags.withdrawn.iter());
        let found = flagged.find(|(entry, _)| entry.has_path(path));
        let (entry, withdrawn) = found.ok_or(Unresolved::Unknown)?;
        entry.answer(*withdrawn)
    }

    fn withdraw(&mut self, number: u32) -> u32 {
        let mut stood = 0;
        for (i, entry) in PackedEntries::of(self.bytes).enumerate() {
            let meant = entry.number() == number;
            stood += u32::from(self.flags.withdraw_if(meant, i));
        }
        stood
    }
}
