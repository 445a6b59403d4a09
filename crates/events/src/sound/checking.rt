//! The soundness check.
ghost use Rattle.std.specs.Prelude.{◌≡◌};
ghost use Rattle.events.specs.Balance.{NestingIsBalance};
ghost use Rattle.events.specs.Checked.{told, unless_broken, verdict};
ghost use Rattle.events.specs.Rules.{first_broken, sizes_hold};
ghost use Rattle.events.specs.Scores.{lists};

use crate::kinds::Rule;
use crate::nesting::containers_nest;
use crate::rules::{
    aliases_point_back, events_fit, marks_fit, numbers_run, piece_fits, stock_fits,
};
use crate::score::{Piece, Stock};
use crate::sound::SoundPiece;

/// The first rule: sizes hold, runs and ranges lie inside the lists, kinds and styles are known.
fn sizes_hold(stock: Stock, piece: Piece) -> bool
    ensures { result ≡ sizes_hold (lists stock.entry) piece }
{
    if !stock_fits(stock) || !piece_fits(piece) {
        return false;
    }
    let Some(marks) = piece.marks.part_of(stock.marks) else {
        return false;
    };
    let Some(events) = piece.events.part_of(stock.events) else {
        return false;
    };
    marks_fit(marks, stock.bytes.len()) && events_fit(events, stock.bytes.len())
}

/// Judges the four rules in their order.
fn judge_rules(stock: Stock, piece: Piece) -> Result<(), Rule>
    ensures { result ≡ unless_broken (first_broken (lists stock.entry) piece) tt }
{
    if !sizes_hold(stock, piece) {
        return Err(Rule::Sizes);
    }
    let events = piece.events.part_of(stock.events).ok_or(Rule::Sizes)?;
    if !containers_nest(events) {
        return Err(Rule::Nesting);
    }
    if !numbers_run(events, piece.marks.len) {
        return Err(Rule::Numbering);
    }
    if !aliases_point_back(events) {
        return Err(Rule::Aliases);
    }
    Ok(())
}

/// Judges a piece of a stock: answers the piece as a sound one, or the first rule that it breaks.
pub fn check<'a>(stock: Stock<'a>, piece: Piece) -> Result<SoundPiece<'a>, Rule>
    ensures judges_the_rules { told result ≡ verdict (lists stock.entry) piece }
    ensures nesting_is_balance { NestingIsBalance }
{
    judge_rules(stock, piece)?;
    Ok(SoundPiece { stock, piece })
}
