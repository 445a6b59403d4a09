//! The table of a shelf.
ghost use Rattle.std.specs.Prelude.{◌≡◌, ℕ, ◌≤◌, List, [], length, Ok, ◌≢◌, find};
ghost use Rattle.std.specs.Option.{option_map};
ghost use Rattle.catalogue.specs.Entries.{Lawful, found, has_path, known, look_up, standing, withdrawn};
ghost use Rattle.shelf.specs.Shelving.{fits_a_shelf, takes, shelving};

use crate::place::Place;
use arrayvec::ArrayVec;
use catalogue::Catalogue;
use catalogue::answers::{CatalogueError, Found, Unresolved};
use events::score::Piece;

/// The longest path that a shelf takes.
const LONGEST_PATH: usize = 64;

/// The largest count of marks or of events of a piece that a shelf takes.
const LARGEST_COUNT: u32 = 65535;

/// A shelf: a catalogue whose entries stand in a table of 256 places.
#[derive(Drop)]
pub struct Shelf {
    entries: ArrayVec<Place, 256>,
    ghost lawful: { Lawful entries.items },
}

/// Whether any shelf could take an entry: its path has 1 to 64 bytes, its number is not 0, and its counts fit 16 bits.
fn fits_a_shelf(path: &[u8], number: u32, piece: Piece) -> bool
    ensures { result ≡ fits_a_shelf path.now number piece }
{
    (1..=LONGEST_PATH).contains(&path.len())
        && number > 0
        && piece.marks.len <= LARGEST_COUNT
        && piece.events.len <= LARGEST_COUNT
}

/// Withdraws the entries of a number, and answers how many of them stood.
fn withdraw_in(places: &mut [Place], number: u32) -> u32
    requires { length places.old ≤ 256 }
    ensures count { result ≡ standing number places.old }
    ensures list { places.new ≡ withdrawn number places.old }
{
    let mut stood = 0;
    for place in places.iter_mut() {
        stood += u32::from(place.withdraw(number));
    }
    stood
}

impl Shelf {
    ghost use Rattle.shelf.specs.Meaning.{entries_of};

    /// A shelf with no entries.
    pub fn new() -> Shelf
        ensures has_no_entries { entries_of result ≡ [] }
    {
        Shelf {
            entries: ArrayVec::new(),
        }
    }

    /// Adds an entry behind the others, which then stands; or says how many entries there are, and leaves all as it was.
    pub fn shelve(&mut self, path: &[u8], number: u32, piece: Piece) -> Result<(), CatalogueError>
        ensures shelved_or_told_how_many { result ≡ (shelving (entries_of self.old) path.now number piece).answer }
        ensures adds_one_entry_behind { entries_of self.new ≡ (shelving (entries_of self.old) path.now number piece).list }
        ensures a_shelved_entry_stands { result ≡ Ok tt → look_up (entries_of self.new) path.now ≡ found number piece }
        ensures other_paths_answer_as_before { (other : List ℕ) → (other ≢ path.now) → look_up (entries_of self.new) other ≡ look_up (entries_of self.old) other }
    {
        if !self.takes(path, number, piece) {
            return Err(CatalogueError::NotShelved {
                entries: self.entries.len() as u32,
            });
        }
        self.entries.push(Place::filled(path, number, piece));
        Ok(())
    }

    /// Whether the shelf takes an entry.
    fn takes(&self, path: &[u8], number: u32, piece: Piece) -> bool
        ensures { result ≡ takes (entries_of self.now) path.now number piece }
    {
        !self.entries.is_full() && fits_a_shelf(path, number, piece) && !self.knows(path)
    }

    /// Whether an entry has the path.
    fn knows(&self, path: &[u8]) -> bool
        ensures { result ≡ known (entries_of self.now) path.now }
    {
        self.entries.iter().any(|place| place.has_path(path))
    }

    /// The first place whose entry has the path.
    fn place_of(&self, path: &[u8]) -> Option<&Place>
        ensures { option_map (λ place. place.now) result ≡ find (has_path path.now) (entries_of self.now) }
    {
        self.entries.iter().find(|place| place.has_path(path))
    }
}

impl Catalogue for Shelf {
    ghost entries = { λ s. s.entries.items };

    ghost lawful = { λ s. s.lawful };

    fn resolve(&self, path: &[u8]) -> Result<Found, Unresolved> {
        self.place_of(path).ok_or(Unresolved::Unknown)?.resolution()
    }

    fn withdraw(&mut self, number: u32) -> u32 {
        withdraw_in(self.entries.as_mut_slice(), number)
    }
}
