//! One place of a shelf.
ghost use Rattle.std.specs.Prelude.{◌≡◌, ◌≤◌, length};
ghost use Rattle.catalogue.specs.Entries.{answer, has_path, stands_as, withdrawn_entry};
ghost use Rattle.shelf.specs.Shelving.{new_entry};

use arrayvec::ArrayVec;
use catalogue::answers::{Found, Unresolved};
use events::score::Piece;
use std::marker::Model;

/// A place of a shelf. It means the entry that it holds.
#[derive(Drop)]
pub struct Place {
    path: ArrayVec<u8, 64>,
    number: u32,
    piece: Piece,
    stands: bool,
}

impl Model for Place {
    ghost use Rattle.catalogue.specs.Entries.{Entry};

    ghost Value = { Entry };

    ghost view = { λ p. record { path = p.path.items; number = p.number; piece = p.piece; stands = p.stands } };
}

impl Default for Place {
    fn default() -> Place {
        Place {
            path: ArrayVec::new(),
            number: 0,
            piece: Piece::default(),
            stands: false,
        }
    }
}

impl Place {
    /// A place with an entry that stands.
    pub fn filled(path: &[u8], number: u32, piece: Piece) -> Place
        requires { length path.now ≤ 64 }
        ensures { result ≡ new_entry path.now number piece }
    {
        Place {
            path: ArrayVec::try_from(path).unwrap(),
            number,
            piece,
            stands: true,
        }
    }

    /// Whether the entry has the path.
    pub fn has_path(&self, path: &[u8]) -> bool
        ensures { result ≡ has_path path.now self.now }
    {
        self.path.as_slice() == path
    }

    /// What the entry answers to its path.
    pub fn resolution(&self) -> Result<Found, Unresolved>
        ensures { result ≡ answer self.now }
    {
        if !self.stands {
            return Err(Unresolved::Withdrawn);
        }
        Ok(Found {
            number: self.number,
            piece: self.piece,
        })
    }

    /// Withdraws the entry if it has the number, and answers whether it stood until then.
    pub fn withdraw(&mut self, number: u32) -> bool
        ensures stood { result ≡ stands_as number self.old }
        ensures entry { self.new ≡ withdrawn_entry number self.old }
    {
        let stood = self.stands && self.number == number;
        if stood {
            self.stands = false;
        }
        stood
    }
}
