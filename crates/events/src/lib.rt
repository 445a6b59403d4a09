//! Scores as lists: events, marks and pieces of a stock, and what makes a piece sound.
#![tactic(auto)]

pub mod kinds;
pub mod marks;
mod nesting;
pub mod rules;
pub mod score;
pub mod sound;
