//! Packed bytes as a whole: the first wrong field.
ghost use Rattle.std.specs.Prelude.{◌≡◌, ◌≤◌, []};
ghost use Rattle.binder.specs.Entries.{count_of, wrong_head, wrong_from, wrong, checked};

use crate::entries::{behind_entry, check_entry, path_len, refuse_if};
use crate::fields::u16_of;
use catalogue::answers::CatalogueError;
use slices::{behind, front};

/// How many entries the bytes say that they have.
pub(crate) fn count_of(bytes: &[u8]) -> usize
    ensures is_the_count { result ≡ count_of bytes.now }
{
    u16_of(behind(bytes, 5)) as usize
}

// No field before the entries is wrong.
fn check_head(bytes: &[u8]) -> Result<(), CatalogueError>
    ensures is_the_first_wrong_field { result ≡ checked (wrong_head bytes.now) }
{
    refuse_if(bytes.len() < 3 || front(bytes, 3) != b"PBK".as_slice(), 0)?;
    refuse_if(bytes.len() < 5 || u16_of(behind(bytes, 3)) != 1, 3)?;
    refuse_if(bytes.len() < 7 || count_of(bytes) > 256, 5)
}

// No field of so many entries is wrong, and nothing stands behind them.
fn check_entries(entries: &[u8], count: usize) -> Result<(), CatalogueError>
    requires { count ≤ 256 }
    ensures is_the_first_wrong_field { result ≡ checked (wrong_from count [] 7 entries.now) }
{
    // A cursor beside the counter: the place of each entry is needed, and what is left behind the last.
    let mut rest = entries;
    let mut place = 7;
    for i in 0..count {
        check_entry(entries, i, place, rest)?;
        place += 21 + path_len(rest) as u32;
        rest = behind_entry(rest);
    }
    refuse_if(!rest.is_empty(), place)
}

/// No field of the bytes is wrong, and there is no extra byte.
pub(crate) fn check(bytes: &[u8]) -> Result<(), CatalogueError>
    ensures is_the_first_wrong_field { result ≡ checked (wrong bytes.now) }
{
    check_head(bytes)?;
    check_entries(behind(bytes, 7), count_of(bytes))
}
