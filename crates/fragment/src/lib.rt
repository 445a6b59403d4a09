//! A passage of a score: collected from its piece, and unfolded onto a tape.
#![tactic(auto)]

pub mod answers;
mod collection;
mod number;
pub mod passage;
mod slate;
mod source;
mod tally;
pub mod tape;
pub mod unfolder;
mod unfolding;
