//! One entry at the front of packed bytes: what it says, and its first wrong field.
ghost use Rattle.std.specs.Prelude.{◌≡◌, ◌+◌, ◌^◌, ◌≤◌};
ghost use Rattle.catalogue.specs.Entries.{known};
ghost use Rattle.binder.specs.Entries.{path_length, path_of, behind_path, piece_of, behind_entry, walk, wrong_if, wrong_length, wrong_path, wrong_number, wrong_piece, wrong_entry, checked};

use crate::fields::{u16_of, u32_of};
use crate::packed::PackedEntries;
use catalogue::answers::CatalogueError;
use events::score::{Piece, Run};
use slices::{behind, byte_at, front};

/// The bytes of an entry behind its path: its number and its piece.
pub(crate) const NUMBERS_LEN: usize = 20;

/// The length that the entry gives for its path.
pub(crate) fn path_len(s: &[u8]) -> usize
    ensures is_the_first_byte { result ≡ path_length s.now }
    ensures small { result ≤ 255 }
{
    byte_at(s, 0) as usize
}

/// The path of the entry.
pub(crate) fn path_of(s: &[u8]) -> &[u8]
    ensures is_the_path { result.now ≡ path_of s.now }
{
    front(behind(s, 1), path_len(s))
}

/// What stands behind the path of the entry.
pub(crate) fn behind_path(s: &[u8]) -> &[u8]
    ensures is_behind_the_path { result.now ≡ behind_path s.now }
{
    behind(behind(s, 1), path_len(s))
}

/// What stands behind the entry.
pub(crate) fn behind_entry(s: &[u8]) -> &[u8]
    ensures is_behind_the_entry { result.now ≡ behind_entry s.now }
{
    behind(behind_path(s), NUMBERS_LEN)
}

/// The piece at the front.
pub(crate) fn piece_of(s: &[u8]) -> Piece
    ensures is_the_piece { result ≡ piece_of s.now }
{
    Piece {
        marks: Run {
            start: u32_of(behind(s, 4)),
            len: u16_of(behind(s, 8)) as u32,
        },
        events: Run {
            start: u32_of(behind(s, 10)),
            len: u16_of(behind(s, 14)) as u32,
        },
        text_len: u32_of(s),
    }
}

// Whether one of the first `n` entries has the path.
fn knows_path(entries: &[u8], n: usize, path: &[u8]) -> bool
    ensures tells_whether_known { result ≡ known (walk n entries.now) path.now }
{
    PackedEntries::first(entries, n).any(|entry| entry.has_path(path))
}

/// The refusal of a field at a place, if it is wrong.
pub(crate) fn refuse_if(wrong: bool, place: u32) -> Result<(), CatalogueError>
    ensures is_the_place_if_wrong { result ≡ checked (wrong_if wrong place) }
{
    if wrong {
        return Err(CatalogueError::Malformed { place });
    }
    Ok(())
}

// The path length is there, and from 1 to 64.
fn check_length(place: u32, s: &[u8]) -> Result<(), CatalogueError>
    ensures is_the_length_if_wrong { result ≡ checked (wrong_length place s.now) }
{
    let len = path_len(s);
    refuse_if(s.is_empty() || len == 0 || len > 64, place)
}

// The path is there, and none of the first `n` entries has it.
fn check_path(entries: &[u8], n: usize, place: u32, s: &[u8]) -> Result<(), CatalogueError>
    ensures is_the_path_if_wrong { result ≡ checked (wrong_path (walk n entries.now) place s.now) }
{
    let cut = behind(s, 1).len() < path_len(s);
    refuse_if(cut || knows_path(entries, n, path_of(s)), place)
}

// The number is there, and not 0.
fn check_number(place: u32, s: &[u8]) -> Result<(), CatalogueError>
    ensures is_the_number_if_wrong { result ≡ checked (wrong_number place s.now) }
{
    refuse_if(s.len() < 4 || u32_of(s) == 0, place)
}

// No field of the piece is cut.
fn check_piece(place: u32, s: &[u8]) -> Result<(), CatalogueError>
    requires { place ≤ 2 ^ 20 }
    ensures is_the_first_cut_field { result ≡ checked (wrong_piece place s.now) }
{
    refuse_if(s.len() < 4, place)?;
    refuse_if(s.len() < 8, place + 4)?;
    refuse_if(s.len() < 10, place + 8)?;
    refuse_if(s.len() < 14, place + 10)?;
    refuse_if(s.len() < 16, place + 14)
}

/// No field of the entry is wrong. It stands behind the first `n` entries.
pub(crate) fn check_entry(
    entries: &[u8],
    n: usize,
    place: u32,
    s: &[u8],
) -> Result<(), CatalogueError>
    requires { place ≤ 2 ^ 19 }
    ensures is_the_first_wrong_field { result ≡ checked (wrong_entry (walk n entries.now) place s.now) }
{
    check_length(place, s)?;
    check_path(entries, n, place + 1, s)?;
    let len = path_len(s) as u32;
    let numbers = behind_path(s);
    check_number(place + 1 + len, numbers)?;
    check_piece(place + 5 + len, behind(numbers, 4))
}
