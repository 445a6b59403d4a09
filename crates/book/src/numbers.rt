//! Numbers as they are written in a book: decimal digits.
ghost use Rattle.std.specs.Prelude.{◌≡◌};
ghost use Rattle.book.specs.Decimal.{number_of, with_digit};

// A number with one more digit behind it, if the byte is a digit and the number then fits.
fn with_digit(number: u32, byte: u8) -> Option<u32>
    ensures value { result ≡ with_digit number byte }
{
    match byte {
        b'0'..=b'9' => number.checked_mul(10)?.checked_add(u32::from(byte - b'0')),
        _ => None,
    }
}

/// The number that a word says: at least one decimal digit, nothing but digits, and below 2^32.
pub(crate) fn number_of(word: &[u8]) -> Option<u32>
    ensures is_the_decimal_value { result ≡ number_of word.now }
{
    if word.is_empty() {
        return None;
    }
    let mut number = 0;
    for byte in word {
        number = with_digit(number, *byte)?;
    }
    Some(number)
}
