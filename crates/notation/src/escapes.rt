//! The escapes of a value: `\\`, `\t`, `\r`, `\n` and `\b`. Every other byte stands for itself.
ghost use Rattle.std.specs.Prelude.{◌≡◌, true, false, ◌⊎◌, ◌++◌, Some, None, MatchResult};
ghost use Rattle.notation.specs.Escapes.{meant, letter, written, escaped, unescaped};
ghost use Rattle.notation.specs.declared.line.LineError.TheVariants.{BadEscape, OutOfMemory};
ghost use Rattle.notation.specs.declared.line.PrintError.TheVariants.{OutOfMemory as print_memory};

use crate::line::{LineError, PrintError};
use std::alloc::Global;

/// The byte that a letter behind a backslash stands for, if it stands for one.
pub(crate) fn meant_by(letter: u8) -> Option<u8>
    ensures value { result ≡ meant letter }
{
    match letter {
        b'\\' => Some(b'\\'),
        b't' => Some(b'\t'),
        b'r' => Some(b'\r'),
        b'n' => Some(b'\n'),
        b'b' => Some(8),
        _ => None,
    }
}

/// The letter that a byte is written by behind a backslash, if it is.
pub(crate) fn letter_of(byte: u8) -> Option<u8>
    ensures value { result ≡ letter byte }
{
    match byte {
        b'\\' => Some(b'\\'),
        b'\t' => Some(b't'),
        b'\r' => Some(b'r'),
        b'\n' => Some(b'n'),
        8 => Some(b'b'),
        _ => None,
    }
}

/// The value that an escaped text stands for.
pub(crate) fn unescape(heap: Global, text: &[u8]) -> Result<Vec<u8>, LineError>
    ensures value { MatchResult result (λ v. unescaped text.now ≡ Some v.items) (λ e. (e ≡ OutOfMemory) ⊎ ((e ≡ BadEscape) × (unescaped text.now ≡ None))) }
{
    let mut out = Vec::new(heap);
    let mut bytes = text.iter();
    while let Some(&byte) = bytes.next() {
        if byte != b'\\' {
            out.push(byte)?;
            continue;
        }
        let letter = bytes.next().ok_or(LineError::BadEscape)?;
        let meant = meant_by(*letter).ok_or(LineError::BadEscape)?;
        out.push(meant)?;
    }
    Ok(out)
}

/// Appends a byte as it is written in a value.
fn push_written(out: &mut Vec<u8>, byte: u8) -> Result<(), PrintError>
    ensures value { MatchResult result (λ _. out.new.items ≡ out.old.items ++ written byte) (λ e. e ≡ print_memory) }
{
    match letter_of(byte) {
        Some(letter) => out.extend_from_slice(&[b'\\', letter])?,
        None => out.push(byte)?,
    }
    Ok(())
}

/// Appends a value as it is written.
pub(crate) fn push_escaped(out: &mut Vec<u8>, value: &[u8]) -> Result<(), PrintError>
    ensures value { MatchResult result (λ _. out.new.items ≡ out.old.items ++ escaped value.now) (λ e. e ≡ print_memory) }
{
    for b in value {
        push_written(out, *b)?;
    }
    Ok(())
}
