//! A sound piece, as a type: only the soundness check makes one.
ghost use Rattle.std.specs.Prelude.{◌≡◌, true};
ghost use Rattle.events.specs.Rules.{sound};
ghost use Rattle.events.specs.Scores.{lists};

mod checking;
mod nodes;
mod reading;

use crate::score::{Piece, Stock};
pub use checking::check;
pub use nodes::NodeTable;

/// A piece of a stock that keeps the four rules. What works on a sound piece takes this type.
#[derive(Clone, Copy)]
pub struct SoundPiece<'a> {
    stock: Stock<'a>,
    piece: Piece,
    ghost keeps_the_rules: { sound (lists stock) piece ≡ true },
}
