//! The marks of a list by their names.
ghost use Rattle.std.specs.Prelude.{◌≡◌};
ghost use Rattle.events.specs.Tables.{FindsLast, is_named, last_named};

use crate::score::Mark;

/// Whether a mark has a name; one whose run lies outside the bytes has none.
fn is_named(bytes: &[u8], mark: Mark, name: &[u8]) -> bool
    ensures { result ≡ is_named bytes.now name.now mark }
{
    mark.name.part_of(bytes).is_some_and(|text| text == name)
}

/// The number of the last mark with a name, if any mark has it; the first mark has number 1.
pub fn last_named(bytes: &[u8], marks: &[Mark], name: &[u8]) -> Option<usize>
    ensures is_the_number_of_the_last_mark { result ≡ last_named bytes.now name.now marks.now }
    ensures finds_the_last { FindsLast bytes.now name.now marks.now result }
{
    marks
        .iter()
        .rposition(|mark| is_named(bytes, *mark, name))
        .map(|place| place + 1)
}
