//! A catalogue that reads packed bytes.
#![tactic(auto)]

mod entries;
mod fields;
mod packed;
pub mod state;
mod whole;
