//! The tape: the places of the events of unfolded passages.
ghost use Rattle.std.specs.Prelude.{◌≡◌, ◌≤◌, [], length, take};
ghost use Rattle.fragment.specs.Ended.{ended};
ghost use Rattle.fragment.specs.Unfolding.{place_at, pushed};

use crate::answers::FragmentError;
use arrayvec::ArrayVec;
use std::marker::Model;

/// A tape of 8,192 places. What is written on it are places of events in the stock, one behind the other.
#[derive(Drop)]
pub struct Tape {
    places: ArrayVec<u32, 8192>,
}

impl Model for Tape {
    ghost use Rattle.std.specs.Prelude.{ℕ, List};

    ghost Value = { List ℕ };

    ghost view = { λ t. t.places.items };
}

impl Tape {
    /// A tape on which nothing is written.
    pub fn new() -> Tape
        ensures nothing_is_written { result ≡ [] }
    {
        Tape {
            places: ArrayVec::new(),
        }
    }

    /// Writes a place behind the others, if there is room.
    pub fn push(&mut self, place: u32) -> Result<(), FragmentError>
        ensures writes_behind_the_others { ended result self.new ≡ pushed place self.old }
    {
        self.places
            .try_push(place)
            .map_err(|_| FragmentError::TapeFull)
    }

    /// How many places are written.
    pub fn len(&self) -> usize
        ensures is_the_count_of_places_written { result ≡ length self.now }
        ensures is_at_most_8192 { result ≤ 8192 }
    {
        self.places.len()
    }

    /// The places that are written, in order.
    pub fn places(&self) -> &[u32]
        ensures are_the_places_written { result.now ≡ self.now }
        ensures are_at_most_8192 { length result.now ≤ 8192 }
    {
        self.places.as_slice()
    }

    /// What is written at an index, if something is.
    pub fn place(&self, index: usize) -> Option<u32>
        ensures is_the_place_written_there { result ≡ place_at self.now index }
    {
        self.places().get(index).copied()
    }

    /// Keeps the first `len` places that are written, or all if they are fewer.
    pub fn cut(&mut self, len: usize)
        ensures keeps_the_first { self.new ≡ take len self.old }
    {
        self.places.truncate(len);
    }
}
