//! The entries of packed bytes, one behind the other.
ghost use Rattle.std.specs.Prelude.{◌≡◌};
ghost use Rattle.catalogue.specs.Entries.{answer, has_path};
ghost use Rattle.binder.specs.Binding.{flagged_entry};
ghost use Rattle.binder.specs.Entries.{listed, walk};

use crate::entries::{NUMBERS_LEN, behind_path, path_of, piece_of};
use crate::fields::u32_of;
use crate::whole::count_of;
use catalogue::answers::{Found, Unresolved};
use slices::behind;
use std::marker::Model;

/// One entry: its path, and what stands behind it.
#[derive(Drop)]
pub(crate) struct PackedEntry<'a> {
    path: &'a [u8],
    numbers: &'a [u8],
}

impl<'a> Model for PackedEntry<'a> {
    ghost use Rattle.catalogue.specs.Entries.{Entry};
    ghost use Rattle.binder.specs.Entries.{entry_with};

    ghost Value = { Entry };

    ghost view = { λ e. entry_with e.path.now e.numbers.now };
}

impl<'a> PackedEntry<'a> {
    /// Whether the entry has the path.
    pub(crate) fn has_path(&self, path: &[u8]) -> bool
        ensures { result ≡ has_path path.now self.now }
    {
        self.path == path
    }

    /// The number of the entry.
    pub(crate) fn number(&self) -> u32
        ensures { result ≡ self.now.number }
    {
        u32_of(self.numbers)
    }

    /// What the entry answers to its path, under its flag.
    pub(crate) fn answer(&self, withdrawn: bool) -> Result<Found, Unresolved>
        ensures is_its_answer { result ≡ answer (flagged_entry withdrawn self.now) }
    {
        if withdrawn {
            return Err(Unresolved::Withdrawn);
        }
        Ok(Found {
            number: self.number(),
            piece: piece_of(behind(self.numbers, 4)),
        })
    }
}

/// The entries from the front of the bytes on, of which so many are left.
#[derive(Drop)]
pub(crate) struct PackedEntries<'a> {
    bytes: &'a [u8],
    left: usize,
}

impl<'a> PackedEntries<'a> {
    ghost use Rattle.binder.specs.Left.{entries_left};

    /// The first entries.
    pub(crate) fn first(bytes: &'a [u8], count: usize) -> PackedEntries<'a>
        ensures are_the_first { entries_left result ≡ walk count bytes.now }
    {
        PackedEntries { bytes, left: count }
    }

    /// The entries of whole packed bytes.
    pub(crate) fn of(bytes: &'a [u8]) -> PackedEntries<'a>
        ensures are_all { entries_left result ≡ listed bytes.now }
    {
        PackedEntries::first(behind(bytes, 7), count_of(bytes))
    }
}

impl<'a> Iterator for PackedEntries<'a> {
    type Item = PackedEntry<'a>;

    ghost use Rattle.std.specs.Iterator.{YieldsFirst, item_count};
    ghost use Rattle.binder.specs.Left.{entries_left};

    ghost next_gives = { YieldsFirst entries_left };

    ghost remaining = { item_count entries_left };

    fn next(&mut self) -> Option<PackedEntry<'a>> {
        self.left = self.left.checked_sub(1)?;
        let path = path_of(self.bytes);
        let numbers = behind_path(self.bytes);
        self.bytes = behind(numbers, NUMBERS_LEN);
        Some(PackedEntry { path, numbers })
    }
}
