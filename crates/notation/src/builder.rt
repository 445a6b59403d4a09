//! A stock is built from the texts of scores.
ghost use Rattle.std.specs.Prelude.{◌≤◌, vec_len};

use events::score::{Event, Mark};
use std::alloc::Global;

/// The lists of a stock, while scores are added.
#[derive(Drop)]
pub struct StockBuilder {
    heap: Global,
    bytes: Vec<u8>,
    marks: Vec<Mark>,
    events: Vec<Event>,
    ghost at_most_1048576_bytes: { vec_len bytes ≤ 1048576 },
    ghost at_most_4096_marks: { vec_len marks ≤ 4096 },
    ghost at_most_65536_events: { vec_len events ≤ 65536 },
}

pub mod scores;
