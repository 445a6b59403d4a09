//! What a catalogue answers.
ghost use Rattle.std.specs.Prelude.{◌≡◌};
ghost use Rattle.catalogue.specs.Refusals.{error_number, error_value, refused_at};

use events::score::Piece;
use refusals::Layer;
use std::error::Error;
use std::fmt;

/// The score of a path: the number and the piece of an entry that has the path and stands.
#[derive(Clone, Copy, Debug, PartialEq, Eq)]
pub struct Found {
    pub number: u32,
    pub piece: Piece,
}

/// Why a path has no score.
#[derive(Clone, Copy, Debug, PartialEq, Eq)]
pub enum Unresolved {
    /// An entry has the path and is withdrawn.
    Withdrawn,
    /// No entry has the path.
    Unknown,
}

impl Unresolved {
    /// The refusal of an insert at a place.
    pub fn at(self, insert: u32) -> CatalogueError
        ensures is_the_refusal_at_the_place { result ≡ refused_at self insert }
    {
        match self {
            Unresolved::Withdrawn => CatalogueError::WithdrawnPath { insert },
            Unresolved::Unknown => CatalogueError::UnknownPath { insert },
        }
    }
}

impl fmt::Display for Unresolved {
    fn fmt<W: fmt::Write>(&self, f: &mut fmt::Formatter<W>) -> fmt::Result {
        f.write_str(match self {
            Unresolved::Withdrawn => "the score of this path is withdrawn",
            Unresolved::Unknown => "no score has this path",
        })
    }
}

impl Error for Unresolved {}

/// Why the catalogue refuses.
#[derive(Clone, Copy, Debug, PartialEq, Eq)]
pub enum CatalogueError {
    /// No entry has the path of the insert at this place.
    UnknownPath { insert: u32 },
    /// The entry of the path of the insert at this place is withdrawn.
    WithdrawnPath { insert: u32 },
    /// Packed bytes are malformed: the start of the first wrong field, or the first extra byte.
    Malformed { place: u32 },
    /// An entry cannot be shelved: how many entries there are.
    NotShelved { entries: u32 },
}

/// The number of the refusal.
impl From<CatalogueError> for u32 {
    ghost from_gives = { λ error number. number ≡ error_number error };

    fn from(error: CatalogueError) -> u32 {
        match error {
            CatalogueError::UnknownPath { .. } => 8,
            CatalogueError::WithdrawnPath { .. } => 9,
            CatalogueError::Malformed { .. } => 25,
            CatalogueError::NotShelved { .. } => 26,
        }
    }
}

impl CatalogueError {
    /// The value that the refusal returns.
    pub fn value(self) -> u32
        ensures is_the_value_of_the_refusal { result ≡ error_value self }
    {
        match self {
            CatalogueError::UnknownPath { insert } | CatalogueError::WithdrawnPath { insert } =>
                insert,
            CatalogueError::Malformed { place } => place,
            CatalogueError::NotShelved { entries } => entries,
        }
    }

    /// The layer that refuses.
    pub fn layer(self) -> Layer
        ensures is_the_catalogue { result ≡ Layer.Catalogue }
    {
        Layer::Catalogue
    }
}

impl fmt::Display for CatalogueError {
    fn fmt<W: fmt::Write>(&self, f: &mut fmt::Formatter<W>) -> fmt::Result {
        match self {
            CatalogueError::UnknownPath { .. } => write!(f, "{}", Unresolved::Unknown),
            CatalogueError::WithdrawnPath { .. } => write!(f, "{}", Unresolved::Withdrawn),
            CatalogueError::Malformed { place } => write!(f, "malformed bytes at {place}"),
            CatalogueError::NotShelved { entries } => write!(
                f,
                "a score cannot be shelved behind {entries} others"
            ),
        }
    }
}

impl Error for CatalogueError {}
