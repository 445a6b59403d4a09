//! Event notation: the events of a score as text, one event to a line.
//!
//! A line begins with one of `+STR`, `-STR`, `+DOC`, `-DOC`, `+MAP`, `-MAP`, `+SEQ`, `-SEQ`, `=VAL` and `=ALI`.
//! Right behind it ` ---` may stand after `+DOC`, ` ...` after `-DOC`, ` {}` after `+MAP` and ` []` after `+SEQ`; they say nothing.
//! `+MAP`, `+SEQ` and `=VAL` may then have ` &anchor`, up to the next space, and ` <tag>`, up to the next `>`.
//! `=VAL` ends with a space, the byte of its style (`:` plain, `'` single quoted, `"` double quoted, `|` literal, `>` folded) and its value;
//! `=ALI` with ` *` and the name of an anchor. In a value `\\`, `\t`, `\r`, `\n` and `\b` stand for a backslash, a tab, a carriage
//! return, a line feed and a backspace, and every other byte for itself; a backslash before anything else is an error.
//!
//! Lines end in a line feed, which the last may lack. Line feeds at the end of a text are passed over; any other empty line is an error.
#![tactic(auto)]

pub mod builder;
mod escapes;
pub mod fault;
mod forms;
pub mod line;
mod parts;
pub mod printing;
pub mod reading;
