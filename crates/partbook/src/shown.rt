//! Bytes shown as text.
use std::fmt;
use std::str::from_utf8;

/// Bytes to be printed on one line. Control characters, and bytes that are no UTF-8, are printed as `\x` and two digits.
#[derive(Clone, Copy)]
pub struct Shown<'a>(pub &'a [u8]);

fn is_control(code: u32) -> bool {
    code < 32 || code == 127
}

fn show_text<W: fmt::Write>(text: &str, f: &mut fmt::Formatter<W>) -> fmt::Result {
    for c in text.chars() {
        let code = u32::from(c);
        if is_control(code) {
            write!(f, "\\x{code:02x}")?;
        } else {
            write!(f, "{c}")?;
        }
    }
    Ok(())
}

fn show_bytes<W: fmt::Write>(bytes: &[u8], f: &mut fmt::Formatter<W>) -> fmt::Result {
    for b in bytes {
        let byte = *b;
        if is_control(u32::from(byte)) || byte >= 128 {
            write!(f, "\\x{byte:02x}")?;
        } else {
            let c = char::from(byte);
            write!(f, "{c}")?;
        }
    }
    Ok(())
}

impl fmt::Display for Shown<'_> {
    fn fmt<W: fmt::Write>(&self, f: &mut fmt::Formatter<W>) -> fmt::Result {
        match from_utf8(self.0) {
            Ok(text) => show_text(text, f),
            Err(_) => show_bytes(self.0, f),
        }
    }
}
