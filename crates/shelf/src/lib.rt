//! A catalogue that is filled entry by entry.
#![tactic(auto)]

mod place;
pub mod table;
