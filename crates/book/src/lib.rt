//! The file `book.txt` of a book: its main score, the scores of its catalogue, and which of them are withdrawn.
#![tactic(auto)]

pub mod contents;
mod entries;
pub mod faults;
pub mod lines;
pub mod lookups;
mod numbers;
pub mod reading;
pub mod scores;
mod words;
